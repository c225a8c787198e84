//! Block collections (YAML 1.2, section 8.2), keys and values.
ghost use Rattle.std.specs.Prelude.{◌≡◌, ◌<◌, ◌+◌, ◌||◌, OnOk, OnErr, Ok, Err};
ghost use Rattle.yaml_chars.specs.Class.{is_break, is_flow};
ghost use Rattle.yaml_tokens.specs.Shown.{tok_of};
ghost use Rattle.model_scanner.specs.State.{put};
ghost use Rattle.model_scanner.specs.Keys.{top_key};
ghost use Rattle.model_scanner.specs.Block.{check_block_entry, pass_dash, roll_entry, begin_entry, fetch_block_entry, begin_key, pass_key, check_key_space, fetch_key, check_value_space, opens_pair, paired, insert_key, begin_keyless_pair, begin_keyless_mapping, begin_keyless_value, value_of, fetch_value};
ghost use Rattle.yaml_scanner.specs.Runs.{Becomes, Front, Runs, Steps, Turns};
ghost use Rattle.yaml_scanner.specs.Shape.{held};
ghost use Rattle.yaml_scanner.specs.ImplicitKeys.{keyed_by};

use crate::ImplicitKey;
use crate::fetcher::{Failed, Fetcher};
use model_scanner::{Collection, FlowLevel};
use yaml_chars::class::{is_alpha, is_blank_or_breakz, is_break, is_flow};
use yaml_chars::{Characters, Marker};
use yaml_lexers::SkipTabs;
use yaml_tokens::{Fault, Problem, Token, TokenType};

/// Whether a character after a `-` is a break or a flow indicator.
fn begins_apart(c: char) -> bool
    ensures { result ≡ (is_break c || is_flow c) }
{
    is_break(c) || is_flow(c)
}

impl<T: Characters> Fetcher<T> {
    /// `-`
    #[inline(never)]
    #[tactic(auto, unfolding(model_scanner::specs::Block::fetch_block_entry))]
    pub(crate) fn fetch_block_entry(&mut self) -> Result<(), Failed>
        requires { Front 1 self.old.window }
        ensures { Runs fetch_block_entry self.old result self.new 4 8 }
    {
        let mark = self.window.mark();
        self.check_block_entry()?;
        self.skip_indicator();
        self.roll_indent(mark.col(), None, Collection::Sequence, mark)?;
        self.pass_dash()?;
        self.begin_entry()
    }

    /// Whether an entry of a block sequence may stand here.
    #[tactic(auto, unfolding(model_scanner::specs::Block::check_block_entry))]
    fn check_block_entry(&mut self) -> Result<(), Failed>
        ensures steps { Steps check_block_entry self.old result self.new 0 }
        ensures told { OnErr result (check_block_entry (held self.old) ≡ Err self.new.fault) }
    {
        if self.in_flow() {
            return Err(self.fail_here(Problem::BlockEntryInFlow));
        }
        if !self.key_allowed {
            return Err(self.fail_here(Problem::BlockEntryNotAllowed));
        }
        Ok(())
    }

    /// Steps over spaces and TABs after a `-`. A TAB must not stand between two dashes that are indicators.
    #[tactic(auto, unfolding(model_scanner::specs::Block::check_dash))]
    fn pass_dash(&mut self) -> Result<(), Failed>
        ensures { Runs pass_dash self.old result self.new 0 0 }
    {
        let found = self.skip_spaces(SkipTabs::Yes)?;
        self.window.lookahead(2);
        if found.found_tabs
            && self.window.peek(0) == '-'
            && is_blank_or_breakz(self.window.peek(1))
        {
            return Err(self.fail_here(Problem::TabAfterDash));
        }
        Ok(())
    }

    /// Steps to the content of an entry.
    fn begin_entry(&mut self) -> Result<(), Failed>
        ensures { Runs begin_entry self.old result self.new 2 0 }
    {
        self.pass_spaces(SkipTabs::No)?;
        self.roll_entry()?;
        self.remove_implicit_key()?;
        self.key_allowed = true;
        let here = self.window.mark();
        self.push_token(here, TokenType::BlockEntry)
    }

    /// Opens a level without a collection, for an entry on a later line, or one that begins with a flow
    /// indicator.
    #[tactic(auto, using(crate::proofs::BlockLemmas::peek_is), unfolding(model_scanner::specs::Block::roll_entry))]
    fn roll_entry(&mut self) -> Result<(), Failed>
        ensures { Runs (λ t. Ok (roll_entry t)) self.old result self.new 1 0 }
    {
        let c = self.window.look_ch();
        if !begins_apart(c) {
            return Ok(());
        }
        self.roll_one_col_indent()
    }

    /// `?`
    #[inline(never)]
    #[tactic(auto, unfolding(model_scanner::specs::Block::fetch_key))]
    pub(crate) fn fetch_key(&mut self) -> Result<(), Failed>
        requires { Front 1 self.old.window }
        ensures { Runs fetch_key self.old result self.new 3 8 }
    {
        let mark = self.window.mark();
        self.begin_key()?;
        self.remove_implicit_key()?;
        self.key_allowed = !self.in_flow();
        self.pass_key()?;
        self.check_key_space()?;
        self.push_token(mark, TokenType::Key)
    }

    /// Begins a key with `?`, and its mapping if the key is the first.
    #[tactic(auto, unfolding(model_scanner::specs::Block::begin_key))]
    fn begin_key(&mut self) -> Result<(), Failed>
        ensures { Steps begin_key self.old result self.new 2 }
    {
        if self.in_flow() {
            // An entry of a flow sequence has a key with `?`.
            if let Some(FlowLevel::Entry) = self.flow.top() {
                self.flow.set_top(FlowLevel::Keyed);
            }
            return Ok(());
        }
        let mark = self.window.mark();
        if !self.key_allowed {
            return Err(self.fail(Fault::At(Problem::KeyNotAllowed, mark)));
        }
        self.roll_indent(mark.col(), None, Collection::Mapping, mark)
    }

    /// Steps over a `?` and what must stand after it.
    fn pass_key(&mut self) -> Result<(), Failed>
        requires { Front 1 self.old.window }
        ensures runs { Runs pass_key self.old result self.new 0 8 }
        ensures ahead { OnOk result (0 < self.new.window.ahead) }
    {
        self.skip_indicator();
        self.skip_yaml_whitespace()
    }

    /// Refuses a TAB after the space of a `?`.
    #[tactic(auto, using(crate::proofs::BlockLemmas::peek_is), unfolding(model_scanner::specs::Block::check_key_space))]
    fn check_key_space(&mut self) -> Result<(), Failed>
        requires { 0 < self.old.window.ahead }
        ensures { Runs check_key_space self.old result self.new 0 0 }
    {
        if self.window.ch() == '\t' {
            return Err(self.fail_here(Problem::TabAfterKey));
        }
        Ok(())
    }

    /// `:`
    #[inline(never)]
    #[tactic(auto, unfolding(model_scanner::specs::Block::fetch_value))]
    pub(crate) fn fetch_value(&mut self) -> Result<(), Failed>
        requires { Front 1 self.old.window }
        ensures { Runs fetch_value self.old result self.new 6 8 }
    {
        let mark = self.window.mark();
        let opens_pair = self.open_pair();
        self.skip_indicator();
        self.check_value_space()?;
        self.begin_value(mark, opens_pair)?;
        self.push_token(mark, TokenType::Value)
    }

    /// Notes that an entry of a flow sequence has a `:`. The result is whether it is the first.
    fn open_pair(&mut self) -> bool
        ensures runs { Turns (λ s. record s { flow = paired s.flow }) self.old self.new }
        ensures value { result ≡ opens_pair (held self.old).flow }
    {
        match self.flow.top() {
            Some(FlowLevel::Entry) => {
                self.flow.set_top(FlowLevel::Pair);
                true
            }
            _ => false,
        }
    }

    /// Steps over spaces and TABs after a `:` and a TAB. TABs alone must not stand before a word or a `-`.
    #[tactic(auto, using(crate::proofs::BlockLemmas::peek_is), unfolding(model_scanner::specs::Block::check_value_space, model_scanner::specs::Block::check_after_tab))]
    fn check_value_space(&mut self) -> Result<(), Failed>
        ensures { Runs check_value_space self.old result self.new 0 0 }
    {
        if self.window.look_ch() != '\t' {
            return Ok(());
        }
        let found = self.skip_spaces(SkipTabs::Yes)?;
        let c = self.window.ch();
        if !found.has_valid_yaml_ws && (c == '-' || is_alpha(c)) {
            return Err(self.fail_here(Problem::TabAfterColon));
        }
        Ok(())
    }

    /// Gives the key of a `:`, if it has one, its token, and its mapping a start if the key is the first.
    fn begin_value(&mut self, mark: Marker, opens_pair: bool) -> Result<(), Failed>
        ensures { Steps (λ s. value_of (top_key s.keys) mark opens_pair s) self.old result self.new 5 }
    {
        match self.keys.top() {
            Some(key) => self.insert_key(key, mark, opens_pair)?,
            None => self.begin_keyless_value(mark, opens_pair)?,
        }
        Ok(())
    }

    /// Gives the key that began without `?` its token, and its mapping a start if the key is the first. In a flow sequence a pair
    /// begins before the key.
    #[tactic(auto, using(crate::proofs::KeyLemmas::with_top_seen), unfolding(model_scanner::specs::Block::insert_key, model_scanner::specs::Block::begin_pair))]
    fn insert_key(&mut self, key: ImplicitKey, mark: Marker, opens_pair: bool) -> Result<(), Failed>
        ensures { Steps (insert_key (keyed_by self.old.tokens.given key) mark opens_pair) self.old result self.new 5 }
    {
        self.put_token(key.position, key.mark, TokenType::Key)?;
        if opens_pair {
            // The key of a pair stands on the line of its `:`.
            if key.mark.line() < mark.line() {
                return Err(self.fail(Fault::At(Problem::ColonMisplaced, mark)));
            }
            let here = self.window.mark();
            self.put_token(key.position, here, TokenType::FlowMappingStart)?;
        }
        let col = key.mark.col();
        self.roll_indent(col, Some(key.position), Collection::Mapping, mark)?;
        self.roll_one_col_indent()?;
        self.keys.set_top(None);
        self.key_allowed = false;
        Ok(())
    }

    /// Inserts a token at a position of the queue, counted from its front.
    #[inline(always)]
    pub(crate) fn put_token(
        &mut self,
        position: usize,
        mark: Marker,
        kind: TokenType,
    ) -> Result<(), Failed>
        ensures runs { Becomes (put (self.old.tokens.given + position) mark (tok_of kind)) self.old result self.new 1 }
        ensures given { OnOk result (self.new.tokens.given ≡ self.old.tokens.given) }
    {
        if let Err(_) = self.tokens.insert(position, Token(mark, kind)) {
            return Err(self.fail(Fault::OutOfMemory));
        }
        Ok(())
    }

    /// A `:` after a key that began with `?`, or without a key.
    #[tactic(auto, unfolding(model_scanner::specs::Block::begin_keyless_value))]
    fn begin_keyless_value(&mut self, mark: Marker, opens_pair: bool) -> Result<(), Failed>
        ensures { Steps (begin_keyless_value mark opens_pair) self.old result self.new 4 }
    {
        self.begin_keyless_pair(opens_pair)?;
        self.begin_keyless_mapping(mark)?;
        self.roll_one_col_indent()?;
        self.key_allowed = !self.in_flow();
        Ok(())
    }

    /// Begins a pair of a flow sequence that has a `:` and no key.
    fn begin_keyless_pair(&mut self, opens_pair: bool) -> Result<(), Failed>
        ensures { Becomes (begin_keyless_pair opens_pair) self.old result self.new 1 }
    {
        if !opens_pair {
            return Ok(());
        }
        let here = self.window.mark();
        self.push_token(here, TokenType::FlowMappingStart)
    }

    /// Outside flow, where a key may begin, begins a mapping at a `:`, unless one is open at its column.
    #[tactic(auto, unfolding(model_scanner::specs::Block::begin_keyless_mapping))]
    fn begin_keyless_mapping(&mut self, mark: Marker) -> Result<(), Failed>
        ensures { Steps (begin_keyless_mapping mark) self.old result self.new 2 }
    {
        if self.in_flow() {
            return Ok(());
        }
        if !self.key_allowed {
            return Err(self.fail(Fault::At(Problem::ValueNotAllowed, mark)));
        }
        self.roll_indent(mark.col(), None, Collection::Mapping, mark)
    }
}
