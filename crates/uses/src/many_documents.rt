//! Several trees are dumped into one text, each followed by a line feed, and the text is loaded again. Everything
//! follows from public contracts.

ghost use Rattle.std.specs.Prelude.{◌≡◌, [], ◌∷◌, ◌++◌, All, OnOk, IfOk, IfErr};
ghost use Rattle.uses.specs.declared.round_trip.NotBack.TheVariants.{OutOfMemory};
ghost use Rattle.yaml_rust2.specs.DumpText.{dump_text};
ghost use Rattle.yaml_rust2.specs.DumpsInTurn.{dump_texts};
ghost use Rattle.yaml_rust2.specs.Text.{string_chars};
ghost use Rattle.yaml_rust2.specs.ValidTree.{IsValid};
ghost use Rattle.yaml_rust2.specs.View.{view, items_view};
ghost use Rattle.yaml_rust2.specs.Writable.{IsWritable};

use crate::round_trip::NotBack;
use std::alloc::Global;
use yaml_rust2::laws::{
    dumps_in_turn_are_laid_out, layouts_in_turn_are_without_nul, layouts_in_turn_mean_their_trees,
};
use yaml_rust2::{Yaml, YamlEmitter, YamlLoader};

#[cfg(test)]
mod tests;

/// Appends the text of a tree in these settings.
fn write_onto(text: &mut String, tree: &Yaml, compact: bool, multiline: bool) -> Result<(), NotBack>
    ensures text { OnOk result (string_chars text.new ≡ string_chars text.old ++ dump_text compact multiline (view tree.now)) }
    ensures valid { OnOk result (IsValid (view tree.now)) }
    ensures refused { IfErr result (λ e. e ≡ OutOfMemory) }
{
    let mut emitter = YamlEmitter::new(text);
    emitter.compact(compact);
    emitter.multiline_strings(multiline);
    match emitter.dump(tree) {
        Ok(()) => Ok(()),
        Err(_) => Err(NotBack::OutOfMemory),
    }
}

/// Appends a line feed.
fn end_line(text: &mut String) -> Result<(), NotBack>
    ensures text { OnOk result (string_chars text.new ≡ string_chars text.old ++ 10 ∷ []) }
    ensures refused { IfErr result (λ e. e ≡ OutOfMemory) }
{
    match text.push('\n') {
        Ok(()) => Ok(()),
        Err(_) => Err(NotBack::OutOfMemory),
    }
}

/// Appends the text of a tree in these settings, and a line feed.
fn append(text: &mut String, tree: &Yaml, compact: bool, multiline: bool) -> Result<(), NotBack>
    ensures text { OnOk result (string_chars text.new ≡ (string_chars text.old ++ dump_text compact multiline (view tree.now)) ++ 10 ∷ []) }
    ensures valid { OnOk result (IsValid (view tree.now)) }
    ensures refused { IfErr result (λ e. e ≡ OutOfMemory) }
{
    write_onto(text, tree, compact, multiline)?;
    end_line(text)?;
    Ok(())
}

/// The dumps of the trees in these settings, in order, each followed by a line feed.
pub fn dumped_in_turn(
    alloc: Global,
    trees: &[Yaml],
    compact: bool,
    multiline: bool,
) -> Result<String, NotBack>
    ensures text { IfOk result (λ text. string_chars text ≡ dump_texts compact multiline (items_view trees.now)) }
    ensures valid { OnOk result (All IsValid (items_view trees.now)) }
    ensures refused { IfErr result (λ e. e ≡ OutOfMemory) }
{
    let mut text = String::new(alloc);
    for tree in trees {
        append(&mut text, tree, compact, multiline)?;
    }
    Ok(text)
}

/// Dumps trees into one text and loads it. If each of them can be written, the documents are the trees, in order, or
/// memory was refused.
pub fn round_trip_in_turn(
    alloc: Global,
    trees: &[Yaml],
    compact: bool,
    multiline: bool,
) -> Result<Vec<Yaml>, NotBack>
    ensures same { IfOk result (λ documents. All IsWritable (items_view trees.now) → items_view documents.items ≡ items_view trees.now) }
    ensures refused { IfErr result (λ e. All IsWritable (items_view trees.now) → e ≡ OutOfMemory) }
{
    let text = dumped_in_turn(alloc, trees, compact, multiline)?;
    dumps_in_turn_are_laid_out();
    layouts_in_turn_mean_their_trees();
    layouts_in_turn_are_without_nul();
    match YamlLoader::load_from_str(alloc, text.as_str()) {
        Ok(documents) => Ok(documents),
        Err(fault) => Err(NotBack::from(fault)),
    }
}
