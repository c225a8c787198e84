//! A tree is dumped, and its text is loaded again: the round trip, from the library's public contracts alone.

ghost use Rattle.std.specs.Prelude.{◌≡◌, [], ◌∷◌, OnOk, IfOk, IfErr};
ghost use Rattle.yaml_rust2.specs.DumpText.{dump_text};
ghost use Rattle.yaml_rust2.specs.Text.{string_chars};
ghost use Rattle.yaml_rust2.specs.ValidTree.{IsValid};
ghost use Rattle.yaml_rust2.specs.View.{view, items_view};
ghost use Rattle.yaml_rust2.specs.Writable.{IsWritable};
ghost use Rattle.uses.specs.declared.round_trip.NotBack.TheVariants.{OutOfMemory};

use std::alloc::Global;
use yaml_rust2::laws::dumps_are_laid_out;
use yaml_rust2::{ScanError, Yaml, YamlEmitter, YamlLoader};

#[cfg(test)]
mod tests;

/// Why a tree did not come back.
#[derive(Debug, Drop)]
pub enum NotBack {
    /// Memory was refused, or the tree has 2^62 levels.
    OutOfMemory,
    /// The tree cannot be written, and its text was refused.
    NotRead(ScanError),
}

impl From<ScanError> for NotBack {
    ghost use Rattle.std.specs.Prelude.{◌≡◌, true};
    ghost use Rattle.uses.specs.declared.round_trip.NotBack.TheVariants.{OutOfMemory};

    ghost from_gives = { λ f e. f.memory ≡ true → e ≡ OutOfMemory };

    fn from(fault: ScanError) -> NotBack {
        if fault.is_out_of_memory() {
            NotBack::OutOfMemory
        } else {
            NotBack::NotRead(fault)
        }
    }
}

/// The text of a tree in these settings.
pub fn dumped(alloc: Global, tree: &Yaml, compact: bool, multiline: bool) -> Result<String, NotBack>
    ensures text { IfOk result (λ text. string_chars text ≡ dump_text compact multiline (view tree.now)) }
    ensures valid { OnOk result (IsValid (view tree.now)) }
    ensures refused { IfErr result (λ e. e ≡ OutOfMemory) }
{
    let mut text = String::new(alloc);
    let mut emitter = YamlEmitter::new(&mut text);
    emitter.compact(compact);
    emitter.multiline_strings(multiline);
    match emitter.dump(tree) {
        Ok(()) => Ok(text),
        Err(_) => Err(NotBack::OutOfMemory),
    }
}

/// Dumps a tree and loads the text. If the tree can be written, the result is one document, which is the tree, or
/// memory was refused.
pub fn round_trip(
    alloc: Global,
    tree: &Yaml,
    compact: bool,
    multiline: bool,
) -> Result<Vec<Yaml>, NotBack>
    ensures same { IfOk result (λ documents. IsWritable (view tree.now) → items_view documents.items ≡ view tree.now ∷ []) }
    ensures refused { IfErr result (λ e. IsWritable (view tree.now) → e ≡ OutOfMemory) }
{
    let text = dumped(alloc, tree, compact, multiline)?;
    dumps_are_laid_out();
    match YamlLoader::load_from_str(alloc, text.as_str()) {
        Ok(documents) => Ok(documents),
        Err(fault) => Err(NotBack::from(fault)),
    }
}
