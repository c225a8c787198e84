ghost use Rattle.std.specs.Prelude.{◌≡◌, ◌<◌, ◌≤◌, ◌^◌, ◌+◌, ◌∷◌, [], OnOk, OnErr, MatchOption, true, false};
ghost use Rattle.model_scanner.specs.Keys.{top_needs_block_end};
ghost use Rattle.model_scanner.specs.Indents.{level};
ghost use Rattle.yaml_scanner.specs.Levels.{ends_open, value_level};
ghost use Rattle.defs_text.specs.Text.{is_empty};

use crate::stack::Stack;
use model_scanner::Indent;
use std::alloc::{AllocError, Global};
use std::marker::Model;

/// The levels of indentation, and the column of the innermost, counted from 1; 0 is outside all
/// collections.
#[derive(Drop)]
pub struct Levels {
    indent: usize,
    indents: Stack<Indent>,
}

impl Model for Levels {
    ghost use Rattle.yaml_scanner.specs.Levels.{Columns, AreSmall};

    ghost Value = { Columns };

    ghost view = { λ s. record { indent = s.indent; indents = s.indents } };

    ghost invariant = { λ s. AreSmall s.indent s.indents };
}

impl Levels {
    /// No block collection is open. It takes no memory.
    pub fn new(alloc: Global) -> Self
        ensures { result ≡ record { indent = 0; indents = [] } }
    {
        Levels {
            indent: 0,
            indents: Stack::new(alloc),
        }
    }

    /// The column of the innermost level.
    #[tactic(auto, using(crate::proofs::LevelLemmas::small_indent, crate::proofs::LevelLemmas::small_block))]
    pub fn indent(&self) -> usize
        ensures value { result ≡ self.now.indent }
        ensures small { result ≤ 2 ^ 63 + 1 }
        ensures block { ends_open self.now.indents ≡ false → result ≤ 2 ^ 63 }
    {
        self.indent
    }

    /// Whether no block collection is open.
    pub fn is_empty(&self) -> bool
        ensures { result ≡ is_empty self.now.indents }
    {
        self.indents.is_empty()
    }

    /// Whether the innermost level is a block collection.
    pub fn needs_block_end(&self) -> bool
        ensures { result ≡ top_needs_block_end self.now.indents }
    {
        self.indents
            .top()
            .is_some_and(|level| level.needs_block_end)
    }

    /// Whether the innermost level is open without a block collection: no `BlockEnd` closes it.
    pub fn is_open(&self) -> bool
        ensures { result ≡ ends_open self.now.indents }
    {
        self.indents
            .top()
            .is_some_and(|level| !level.needs_block_end)
    }

    /// Where the innermost level opens no collection and the one outside it is a block collection: the column of that one.
    #[tactic(auto)]
    pub fn value_level(&self) -> Option<usize>
        ensures { result ≡ value_level self.now.indents }
    {
        let inner = self.indents.top()?;
        let outer = self.indents.under()?;
        if inner.needs_block_end || !outer.needs_block_end {
            return None;
        }
        Some(inner.indent)
    }

    /// Opens a block collection at a column. An `Err` changes nothing.
    #[tactic(auto, using(crate::proofs::LevelLemmas::small_below))]
    pub fn push_block(&mut self, col: usize) -> Result<(), AllocError>
        requires { col < 2 ^ 63 }
        ensures ok { OnOk result (self.new ≡ record { indent = col + 1; indents = level self.old.indent true ∷ self.old.indents }) }
        ensures err { OnErr result (self.new ≡ self.old) }
    {
        let level = Indent {
            indent: self.indent,
            needs_block_end: true,
        };
        self.indents.push(level)?;
        self.indent = col + 1;
        Ok(())
    }

    /// Opens a level one column deeper than a block collection. An `Err` changes nothing.
    #[tactic(auto, using(crate::proofs::LevelLemmas::small_indent, crate::proofs::LevelLemmas::small_under))]
    pub fn push_open(&mut self) -> Result<(), AllocError>
        requires { top_needs_block_end self.old.indents ≡ true }
        ensures ok { OnOk result (self.new ≡ record { indent = self.old.indent + 1; indents = level self.old.indent false ∷ self.old.indents }) }
        ensures err { OnErr result (self.new ≡ self.old) }
    {
        let level = Indent {
            indent: self.indent,
            needs_block_end: false,
        };
        self.indents.push(level)?;
        self.indent += 1;
        Ok(())
    }

    /// Removes the innermost level. The result is whether it was a block collection.
    pub fn pop(&mut self) -> Option<bool>
        ensures { MatchOption result ((self.old.indents ≡ []) × (self.new ≡ self.old)) (λ ends. self.old.indents ≡ level self.new.indent ends ∷ self.new.indents) }
    {
        let level = self.indents.pop()?;
        self.indent = level.indent;
        Some(level.needs_block_end)
    }
}
