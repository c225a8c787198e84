//! JSON to YAML, from the library's public contracts and those of the round trip.

ghost use Rattle.std.specs.Prelude.{◌≡◌, chars, IfOk, IfErr};
ghost use Rattle.yaml_rust2.specs.Json.{IsJsonText};
ghost use Rattle.yaml_rust2.specs.Basic.{IsBasicLayout};
ghost use Rattle.yaml_rust2.specs.Text.{string_chars};
ghost use Rattle.yaml_rust2.specs.Tree.{Tree};
ghost use Rattle.yaml_rust2.specs.Writable.{IsWritable};
ghost use Rattle.uses.specs.declared.round_trip.NotBack.TheVariants.{OutOfMemory};

use crate::round_trip::{NotBack, dumped};
use std::alloc::Global;
use yaml_rust2::YamlLoader;
use yaml_rust2::laws::dumps_are_laid_out;

#[cfg(test)]
mod tests;

/// Writes the first document of a text as YAML, in these settings; the text is empty if there is no document. If the
/// text is a JSON text whose value can be written, the result is a basic layout of that value, so it loads as that
/// value.
pub fn to_yaml(alloc: Global, json: &str, compact: bool, multiline: bool) -> Result<String, NotBack>
    ensures same { IfOk result (λ yaml. (tree : Tree) → IsJsonText tree (chars json.now) → IsWritable tree → IsBasicLayout tree (string_chars yaml)) }
    ensures refused { IfErr result (λ e. (tree : Tree) → IsJsonText tree (chars json.now) → e ≡ OutOfMemory) }
{
    let documents = match YamlLoader::load_from_str(alloc, json) {
        Ok(documents) => documents,
        Err(fault) => return Err(NotBack::from(fault)),
    };
    dumps_are_laid_out();
    match documents.first() {
        Some(value) => dumped(alloc, value, compact, multiline),
        None => Ok(String::new(alloc)),
    }
}
