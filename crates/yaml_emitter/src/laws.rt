//! The law of dumps and layouts, for the tree of a `Yaml`.

ghost use Rattle.defs_layout.specs.DumpIsLaidOut.{IsDumpLaidOut};
ghost use Rattle.yaml_tree.specs.View.{view};

use crate::walk::look;
use proof_layouts::laws::dumps_are_laid_out;
use yaml_tree::Yaml;

/// If the tree can be written, the text that is written for it in these settings is a basic layout of it. The law
/// returns nothing and takes no memory. It visits each node once, since a proof learns only from the nodes that no
/// key comes twice and that integers have 64 bits. `dump` says this of a tree that it has written.
pub fn laid_out(tree: &Yaml, compact: bool, multiline: bool)
    ensures { IsDumpLaidOut compact multiline (view tree.now) }
{
    dumps_are_laid_out();
    look(tree);
}
