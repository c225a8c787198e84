//! Merge keys: the pairs of other mappings, put into the mapping that names them by a key `<<`.
//!
//! [`merge`] carries out the merge keys of a loaded tree, those of inner mappings first. The value of `<<` is a mapping, or a
//! sequence of mappings: mostly an alias, which the load has replaced by a copy of its node. Each of their pairs is put in
//! unless its key is there already. So a mapping's own keys override all, and an earlier mapping of a sequence a later one.
//!
//! ```
//! let text = "defaults: &d {host: a, port: 80}\nserver: {<<: *d, port: 8080}\n";
//! let documents = YamlLoader::load_from_str(alloc, text)?;
//! let settings = merge(alloc, documents.first().ok_or("no document")?)?;
//! let server = settings.get_key("server").ok_or("no server")?; // {port: 8080, host: a}
//! assert_eq!(rt; server.get_key("port"), Some(&Yaml::Integer(8080)));
//! ```
//!
//! The mapping's own pairs keep their order, and the merged ones stand after them. A value replaces or stays as a whole: to lay
//! mappings over each other at all levels there is [`overlay`](crate::overlay). Keys that are mappings are not looked into.
//!
//! The merge key is one of YAML 1.1 (yaml.org/type/merge.html). YAML 1.2 has no such key, so a load leaves it as any other.

ghost use Rattle.std.specs.Prelude.{◌≡◌, None, IfOk, OnOk, IfErr};
ghost use Rattle.defs_tree.specs.MergeFault.{any_node, first_fault};
ghost use Rattle.defs_tree.specs.Merge.{merged};
ghost use Rattle.defs_tree.specs.Writable.{IsWritable};
ghost use Rattle.overlay.specs.Outcome.{Says};
ghost use Rattle.yaml_tree.specs.View.{view};

use crate::carry_out::merged;
pub use crate::error::{MergeError, NotAMapping};
use crate::find::first_fault;
use std::alloc::Global;
use yaml_tree::Yaml;

/// The tree with all its merge keys carried out. The tree itself stays as it is.
///
/// A tree without merge keys comes back equal. No merge key is left, and no mapping has a key twice (`laws`). If the tree
/// can be written and read back, the result can be too.
///
/// # Errors
///
/// `NotAMapping` names the first node that is to be merged and is no mapping. Memory is taken for the new tree and for the
/// path in this error; where the tree is a number of 64 bits, a `Boolean`, an `Alias`, `Null` or `BadValue`, none is.
pub fn merge(alloc: Global, tree: &Yaml) -> Result<Yaml, MergeError>
    ensures tree { IfOk result (λ y. view y ≡ merged (view tree.now)) }
    ensures mergeable { OnOk result (first_fault any_node (view tree.now) ≡ None) }
    ensures writable { IsWritable (view tree.now) → IfOk result (λ y. IsWritable (view y)) }
    ensures err { IfErr result (Says (view tree.now)) }
{
    match first_fault(alloc, tree) {
        Ok(None) => {}
        Ok(Some(node)) => return Err(MergeError::NotAMapping(node)),
        Err(_) => return Err(MergeError::OutOfMemory),
    }
    match merged(alloc, tree) {
        Ok(tree) => Ok(tree),
        Err(_) => Err(MergeError::OutOfMemory),
    }
}
