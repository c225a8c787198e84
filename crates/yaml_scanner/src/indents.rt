ghost use Rattle.std.specs.Prelude.{◌≡◌, ◌<◌, ◌^◌, ℕ, Ok, Err, OnErr, false, ◌+◌};
ghost use Rattle.model_scanner.specs.State.{in_flow, token};
ghost use Rattle.model_scanner.specs.Keys.{save_implicit_key, remove_implicit_key, stale};
ghost use Rattle.model_scanner.specs.Indents.{roll_indent, drop_open_level, roll_one_col_indent, unroll_indent, unroll_non_block_indents};
ghost use Rattle.model_scanner.specs.Kinds.{block_start};
ghost use Rattle.yaml_scanner.specs.Levels.{ends_open};
ghost use Rattle.yaml_scanner.specs.Runs.{Becomes, Steps, Turns};
ghost use Rattle.yaml_scanner.specs.Shape.{held};
ghost use Rattle.yaml_scanner.specs.ImplicitKeys.{number_of};

use crate::ImplicitKey;
use crate::fetcher::{Failed, Fetcher};
use model_scanner::Collection;
use yaml_chars::{Characters, Marker};
use yaml_tokens::{Fault, Problem, Token, TokenType};

impl<T: Characters> Fetcher<T> {
    pub(crate) fn in_flow(&self) -> bool
        ensures { result ≡ in_flow (held self.now) }
    {
        !self.flow.is_empty()
    }

    /// Notes that the next token may be a key, if one is allowed.
    #[inline(always)]
    #[tactic(auto, using(crate::proofs::KeyLemmas::with_top_seen), unfolding(model_scanner::specs::Keys::save_implicit_key, model_scanner::specs::Keys::must_be_key))]
    pub(crate) fn save_implicit_key(&mut self)
        ensures { Turns save_implicit_key self.old self.new }
    {
        if self.key_allowed {
            let mark = self.window.mark();
            // A token at the column of a block collection must be a key.
            let required = !self.in_flow()
                && self.levels.indent() == mark.col() + 1
                && self.levels.needs_block_end();
            let key = ImplicitKey {
                required,
                position: self.tokens.len(),
                mark,
            };
            self.keys.set_top(Some(key));
        }
    }

    /// Gives up the possible key of the innermost level.
    #[inline(always)]
    pub(crate) fn remove_implicit_key(&mut self) -> Result<(), Failed>
        ensures steps { Steps remove_implicit_key self.old result self.new 0 }
        ensures told { OnErr result (remove_implicit_key (held self.old) ≡ Err self.new.fault) }
    {
        if self.keys.top_is_required() {
            return Err(self.fail_here(Problem::KeyExpected));
        }
        self.keys.set_top(None);
        Ok(())
    }

    /// Outside flow, gives up a possible implicit key that began on an earlier line or more than 1024 characters before
    /// (YAML 1.2, section 8.2.2). One that must be a key is a fault then.
    #[inline(always)]
    pub(crate) fn drop_stale(&mut self) -> Result<(), Failed>
        ensures steps { Steps stale self.old result self.new 0 }
        ensures told { OnErr result (stale (held self.old) ≡ Err self.new.fault) }
        ensures tokens { self.new.tokens ≡ self.old.tokens }
    {
        if self.in_flow() {
            return Ok(());
        }
        let mark = self.window.mark();
        if let Err(fault) = self.keys.drop_stale(mark) {
            return Err(self.fail(fault));
        }
        Ok(())
    }

    /// Begins a collection at a column, unless one is open there or the position is inside flow. Its start goes in
    /// before that many waiting tokens, or after all of them.
    #[inline(always)]
    #[tactic(auto, unfolding(model_scanner::specs::Indents::roll_indent, model_scanner::specs::Indents::deepen))]
    pub(crate) fn roll_indent(
        &mut self,
        col: usize,
        position: Option<usize>,
        kind: Collection,
        mark: Marker,
    ) -> Result<(), Failed>
        requires { col < 2 ^ 63 }
        ensures { Becomes (roll_indent col (number_of self.old.tokens.given position) (block_start kind) mark) self.old result self.new 2 }
    {
        if self.in_flow() {
            return Ok(());
        }
        self.drop_open_level(col);
        if self.levels.indent() > col {
            return Ok(());
        }
        if let Err(_) = self.levels.push_block(col) {
            return Err(self.fail(Fault::OutOfMemory));
        }
        match position {
            Some(position) => self.put_token(position, mark, kind.block_start()),
            None => self.push_token(mark, kind.block_start()),
        }
    }

    /// A level that opens no collection goes before one at its column or after that.
    #[tactic(auto, unfolding(model_scanner::specs::Indents::drop_open_level))]
    fn drop_open_level(&mut self, col: usize)
        requires { col < 2 ^ 63 }
        ensures runs { Turns (drop_open_level col) self.old self.new }
        ensures tokens { self.new.tokens ≡ self.old.tokens }
    {
        if self.levels.is_open() {
            if self.levels.indent() <= col + 1 {
                let _ = self.levels.pop();
            }
        }
    }

    /// Opens a level without a collection, one column deeper, inside a block collection.
    #[inline(always)]
    #[tactic(auto, unfolding(model_scanner::specs::Indents::roll_one_col_indent, model_scanner::specs::Indents::in_block))]
    pub(crate) fn roll_one_col_indent(&mut self) -> Result<(), Failed>
        ensures { Becomes roll_one_col_indent self.old result self.new 1 }
    {
        if self.in_flow() || !self.levels.needs_block_end() {
            return Ok(());
        }
        if let Err(_) = self.levels.push_open() {
            return Err(self.fail(Fault::OutOfMemory));
        }
        Ok(())
    }

    /// Outside flow, ends the levels deeper than the limit.
    #[inline(always)]
    #[tactic(auto, using(crate::proofs::HeldLemmas::unroll_shallow))]
    pub(crate) fn unroll_indent(&mut self, limit: usize) -> Result<(), Failed>
        ensures { Becomes (unroll_indent limit) self.old result self.new 0 }
    {
        if self.levels.indent() <= limit {
            return Ok(());
        }
        self.end_levels(limit)
    }

    // The same, where some level is deeper.
    #[inline(never)]
    fn end_levels(&mut self, limit: usize) -> Result<(), Failed>
        ensures { Becomes (unroll_indent limit) self.old result self.new 0 }
    {
        if self.in_flow() {
            return Ok(());
        }
        'levels: while self.levels.indent() > limit {
            let Some(needs_block_end) = self.levels.pop() else {
                return Ok(());
            };
            if needs_block_end {
                let mark = self.window.mark();
                if let Err(_) = self.tokens.push(Token(mark, TokenType::BlockEnd)) {
                    return Err(self.fail(Fault::OutOfMemory));
                }
            }
        }
        Ok(())
    }

    /// Removes the innermost levels that open no collection.
    pub(crate) fn unroll_non_block_indents(&mut self)
        ensures runs { Turns unroll_non_block_indents self.old self.new }
        ensures block { ends_open self.new.levels.indents ≡ false }
    {
        'levels: while self.levels.is_open() {
            let _ = self.levels.pop();
        }
    }
}
