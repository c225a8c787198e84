//! Settings with defaults by merge keys, read with their types: an error names the path of what is wrong.

ghost use Rattle.std.specs.Prelude.{◌≡◌, Some, IfOk, IfErr, chars};
ghost use Rattle.uses.specs.Servers.{port_path};
ghost use Rattle.overlay.specs.Merge.{merged};
ghost use Rattle.yaml_paths.specs.Explained.{Explains};
ghost use Rattle.yaml_paths.specs.Path.{node_at};
ghost use Rattle.yaml_paths.specs.declared.kind.Kind.TheVariants as kind;
ghost use Rattle.yaml_rust2.specs.Basic.{IsBasicLayout};
ghost use Rattle.yaml_rust2.specs.Tree.{Tree, integer};
ghost use Rattle.yaml_rust2.specs.View.{view};

use overlay::merge_keys::{MergeError, merge};
use std::alloc::Global;
use thiserror::Error;
use yaml_paths::{ReadError, Step, read};
use yaml_rust2::{ScanError, Yaml, YamlLoader};

#[cfg(test)]
mod tests;

/// Why settings were not loaded.
#[derive(Debug, Drop, Error)]
pub enum NoSettings {
    /// The text was refused.
    #[error(transparent)]
    Scan(#[from] ScanError),
    /// There is no document.
    #[error("the file is empty")]
    Empty,
    /// A merge key has no mappings, or memory was refused.
    #[error(transparent)]
    Merge(#[from] MergeError),
}

const PORT: &[Step<'static>] = &[Step::Key("server"), Step::Key("port")];

/// The settings in a text's first document, with all merge keys carried out. If the text is a basic layout, they are those
/// of its tree.
pub fn load_settings(alloc: Global, text: &str) -> Result<Yaml, NoSettings>
    ensures { IfOk result (λ settings. (tree : Tree) → IsBasicLayout tree (chars text.now) → view settings ≡ merged tree) }
{
    let documents = YamlLoader::load_from_str(alloc, text)?;
    let Some(document) = documents.first() else {
        return Err(NoSettings::Empty);
    };
    let settings = merge(alloc, document)?;
    Ok(settings)
}

/// The server's port.
pub fn port(settings: &Yaml) -> Result<i64, ReadError<'static>>
    ensures value { IfOk result (λ port. node_at port_path (view settings.now) ≡ Some (integer port)) }
    ensures err { IfErr result (Explains kind.Integer port_path (view settings.now)) }
{
    read(settings, PORT)
}
