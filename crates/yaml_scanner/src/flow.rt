//! Flow collections (YAML 1.2, section 7.4).
ghost use Rattle.std.specs.Prelude.{◌≡◌, ◌<◌, ◌∷◌, Ok, Err, true, false, slice_index};
ghost use Rattle.yaml_chars.specs.WindowView.{Reads, after_char};
ghost use Rattle.yaml_tokens.specs.Shown.{tok_of};
ghost use Rattle.model_scanner.specs.State.{push};
ghost use Rattle.model_scanner.specs.Flow.{increase_flow_level, begin_flow, pass_indicator, end_flow_pair, adjacent_in_flow, end_flow, fetch_flow_collection_start, fetch_flow_collection_end, fetch_flow_entry};
ghost use Rattle.yaml_scanner.specs.Runs.{Becomes, Front, Runs, Steps, Turns};
ghost use Rattle.yaml_scanner.specs.Work.{Moves};

use crate::fetcher::{Failed, Fetcher};
use model_scanner::{Collection, FlowLevel};
use yaml_chars::{Characters, Marker};
use yaml_lexers::SkipTabs;
use yaml_tokens::{Fault, Problem, Token, TokenType};

// How many levels of flow collections there may be.
const DEEPEST_FLOW: usize = 255;

impl<T: Characters> Fetcher<T> {
    /// Steps over an indicator.
    #[inline(always)]
    pub(crate) fn skip_indicator(&mut self)
        requires { Front 1 self.old.window }
        ensures state { self.new ≡ record self.old { window = after_char self.old.window; leading = false } }
        ensures reads { Reads self.old.window self.new.window (λ a b. a ≡ slice_index a 0 ∷ b) }
        ensures bounds { Moves self.old self.new 0 8 }
    {
        self.window.skip();
        self.leading = false;
    }

    /// Steps over an indicator, spaces and a comment.
    #[inline(always)]
    #[tactic(auto, unfolding(model_scanner::specs::Flow::pass_indicator))]
    pub(crate) fn pass_indicator(&mut self) -> Result<(), Failed>
        requires { Front 1 self.old.window }
        ensures { Runs pass_indicator self.old result self.new 0 8 }
    {
        self.skip_indicator();
        self.pass_spaces(SkipTabs::Yes)
    }

    /// Adds a token.
    #[inline(always)]
    pub(crate) fn push_token(&mut self, mark: Marker, kind: TokenType) -> Result<(), Failed>
        ensures { Becomes (push mark (tok_of kind)) self.old result self.new 1 }
    {
        if let Err(_) = self.tokens.push(Token(mark, kind)) {
            return Err(self.fail(Fault::OutOfMemory));
        }
        Ok(())
    }

    /// `[` or `{`
    #[inline(never)]
    #[tactic(auto, unfolding(model_scanner::specs::Flow::fetch_flow_collection_start))]
    pub(crate) fn fetch_flow_collection_start(&mut self, kind: Collection) -> Result<(), Failed>
        requires { Front 1 self.old.window }
        ensures { Runs (fetch_flow_collection_start kind) self.old result self.new 2 8 }
    {
        let mark = self.window.mark();
        self.begin_flow(kind)?;
        self.pass_indicator()?;
        self.push_token(mark, kind.flow_start())
    }

    /// Notes the start of a flow collection, which may be a key.
    #[tactic(auto, unfolding(model_scanner::specs::Flow::begin_flow))]
    fn begin_flow(&mut self, kind: Collection) -> Result<(), Failed>
        ensures { Steps (begin_flow kind) self.old result self.new 1 }
    {
        self.save_implicit_key();
        self.roll_one_col_indent()?;
        self.increase_flow_level(kind)?;
        self.key_allowed = true;
        Ok(())
    }

    #[tactic(auto, unfolding(model_scanner::specs::Flow::increase_flow_level))]
    fn increase_flow_level(&mut self, kind: Collection) -> Result<(), Failed>
        ensures { Steps (increase_flow_level kind) self.old result self.new 0 }
    {
        if self.flow.len() >= DEEPEST_FLOW {
            return Err(self.fail_here(Problem::FlowTooDeep));
        }
        if let Err(_) = self.keys.open_level() {
            return Err(self.fail(Fault::OutOfMemory));
        }
        if let Err(_) = self.flow.push(kind.flow_level()) {
            return Err(self.fail(Fault::OutOfMemory));
        }
        Ok(())
    }

    /// `]` or `}`
    #[inline(never)]
    #[tactic(auto, unfolding(model_scanner::specs::Flow::fetch_flow_collection_end))]
    pub(crate) fn fetch_flow_collection_end(&mut self, kind: Collection) -> Result<(), Failed>
        requires { Front 1 self.old.window }
        ensures { Runs (fetch_flow_collection_end kind) self.old result self.new 2 8 }
    {
        let mark = self.window.mark();
        self.end_flow()?;
        self.pass_indicator()?;
        self.adjacent_in_flow();
        self.push_token(mark, kind.flow_end())
    }

    /// Ends the innermost flow collection.
    #[tactic(auto, using(crate::proofs::KeyLemmas::pop_seen), unfolding(model_scanner::specs::Flow::end_flow, model_scanner::specs::Flow::decrease_flow_level))]
    fn end_flow(&mut self) -> Result<(), Failed>
        ensures { Steps end_flow self.old result self.new 1 }
    {
        self.remove_implicit_key()?;
        self.end_flow_pair()?;
        self.key_allowed = false;
        if let Some(_) = self.flow.pop() {
            self.keys.close_level();
        }
        Ok(())
    }

    /// A `:` may stand right after a flow collection that is a key.
    #[tactic(auto, unfolding(model_scanner::specs::Flow::adjacent_in_flow))]
    fn adjacent_in_flow(&mut self)
        ensures { Turns adjacent_in_flow self.old self.new }
    {
        if self.in_flow() {
            self.adjacent_value_at = self.window.mark().index();
        }
    }

    /// `,`
    #[inline(never)]
    #[tactic(auto, unfolding(model_scanner::specs::Flow::fetch_flow_entry, model_scanner::specs::Flow::end_entry))]
    pub(crate) fn fetch_flow_entry(&mut self) -> Result<(), Failed>
        requires { Front 1 self.old.window }
        ensures { Runs fetch_flow_entry self.old result self.new 2 8 }
    {
        let mark = self.window.mark();
        self.remove_implicit_key()?;
        self.key_allowed = true;
        self.end_flow_pair()?;
        self.pass_indicator()?;
        self.push_token(mark, TokenType::FlowEntry)
    }

    /// Ends an entry of the innermost flow collection, and with it a single-pair mapping.
    #[inline(always)]
    #[tactic(auto, unfolding(model_scanner::specs::Flow::end_flow_pair))]
    fn end_flow_pair(&mut self) -> Result<(), Failed>
        ensures { Becomes end_flow_pair self.old result self.new 1 }
    {
        match self.flow.top() {
            Some(FlowLevel::Pair) => {
                let mark = self.window.mark();
                self.flow.set_top(FlowLevel::Entry);
                self.push_token(mark, TokenType::FlowMappingEnd)
            }
            Some(FlowLevel::Keyed) => {
                self.flow.set_top(FlowLevel::Entry);
                Ok(())
            }
            Some(FlowLevel::Mapping) => Ok(()),
            Some(FlowLevel::Entry) => Ok(()),
            None => Ok(()),
        }
    }
}
