//! Settings, read by key from a loaded document, from the library's public contracts alone.

ghost use Rattle.std.specs.Prelude.{◌≡◌, true, false, codes, chars, option_map, IfOk, IfErr};
ghost use Rattle.yaml_rust2.specs.Basic.{IsBasicLayout};
ghost use Rattle.yaml_rust2.specs.Text.{up_to_nul};
ghost use Rattle.yaml_rust2.specs.Tree.{Tree};
ghost use Rattle.yaml_rust2.specs.Unread.{IsUnread};
ghost use Rattle.yaml_rust2.specs.View.{view};
ghost use Rattle.uses.specs.Settings.{number_of, word_of};

use std::alloc::Global;
use yaml_rust2::{ScanError, Yaml, YamlLoader};

#[cfg(test)]
mod tests;

/// The number at a key.
pub fn number(settings: &Yaml, key: &str) -> Option<i64>
    ensures { result ≡ number_of (chars key.now) (view settings.now) }
{
    settings.get_key(key)?.as_i64()
}

/// The text at a key.
pub fn word<'a>(settings: &'a Yaml, key: &str) -> Option<&'a str>
    ensures { option_map (λ s. chars s.now) result ≡ word_of (chars key.now) (view settings.now) }
{
    settings.get_key(key)?.as_str()
}

/// The number at `port` in a text's first document. If the text is a basic layout, it is the number in its tree.
///
/// # Errors
///
/// The text's fault, or memory was refused. A basic layout has no fault.
pub fn port(alloc: Global, text: &str) -> Result<Option<i64>, ScanError>
    ensures refused { IfErr result (λ fault. IsUnread false (up_to_nul (chars text.now)) fault) }
    ensures only_in_memory { IfErr result (λ fault. (tree : Tree) → IsBasicLayout tree (chars text.now) → fault.memory ≡ true) }
    ensures value { IfOk result (λ port. (tree : Tree) → IsBasicLayout tree (chars text.now) → port ≡ number_of (codes "port") tree) }
{
    let documents = YamlLoader::load_from_str(alloc, text)?;
    match documents.first() {
        Some(settings) => Ok(number(settings, "port")),
        None => Ok(None),
    }
}
