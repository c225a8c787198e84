//! A tree is written as JSON, and the text is loaded again: nothing is lost.

ghost use Rattle.std.specs.Prelude.{◌≡◌, ◌≤◌, [], ◌∷◌, None, OnOk, IfOk, IfErr};
ghost use Rattle.uses.specs.declared.json_and_back.Lost.TheVariants.{OutOfMemory};
ghost use Rattle.yaml_json.specs.HasJson.{HasJson, nesting};
ghost use Rattle.yaml_json.specs.JsonText.{json_text};
ghost use Rattle.yaml_rust2.specs.Text.{string_chars};
ghost use Rattle.yaml_rust2.specs.View.{view, items_view};

use std::alloc::Global;
use yaml_json::laws::{json_has_no_fault, json_texts_are_json};
use yaml_json::{JsonError, NoJson, write_json};
use yaml_rust2::{ScanError, Yaml, YamlLoader};

#[cfg(test)]
mod tests;

/// Why a tree did not come back.
#[derive(Debug, Drop)]
pub enum Lost {
    /// Memory was refused.
    OutOfMemory,
    /// A node has no JSON text.
    NoJson(NoJson),
    /// The text was refused: the tree nests more than 255 levels.
    NotRead(ScanError),
}

/// The JSON text of a tree.
pub fn json_of(alloc: Global, tree: &Yaml) -> Result<String, Lost>
    ensures text { IfOk result (λ text. string_chars text ≡ json_text None 0 (view tree.now)) }
    ensures has_json { OnOk result (HasJson (view tree.now)) }
    ensures refused { IfErr result (λ e. HasJson (view tree.now) → e ≡ OutOfMemory) }
{
    json_has_no_fault();
    let mut text = String::new(alloc);
    match write_json(alloc, tree, &mut text) {
        Ok(()) => Ok(text),
        Err(JsonError::NoJson(node)) => Err(Lost::NoJson(node)),
        Err(JsonError::OutOfMemory | JsonError::Refused(_)) => Err(Lost::OutOfMemory),
    }
}

/// Writes a tree as JSON and loads the text. If the tree has a JSON text and nests at most 255 levels, the result is one
/// document, which is the tree, or memory was refused.
pub fn json_and_back(alloc: Global, tree: &Yaml) -> Result<Vec<Yaml>, Lost>
    ensures same { IfOk result (λ documents. nesting (view tree.now) ≤ 255 → items_view documents.items ≡ view tree.now ∷ []) }
    ensures refused { IfErr result (λ e. HasJson (view tree.now) → nesting (view tree.now) ≤ 255 → e ≡ OutOfMemory) }
{
    let text = json_of(alloc, tree)?;
    json_texts_are_json();
    match YamlLoader::load_from_str(alloc, text.as_str()) {
        Ok(documents) => Ok(documents),
        Err(fault) if fault.is_out_of_memory() => Err(Lost::OutOfMemory),
        Err(fault) => Err(Lost::NotRead(fault)),
    }
}
