//! YAML trees as JSON (RFC 8259), compact or indented, and JSON texts as trees.
//!
//! A tree has a JSON text if its keys are strings, its reals are numbers of JSON, and no alias and no bad value stands
//! in it. [`write_json`] writes it without white space, [`write_json_indented`] on several lines. A load of what was
//! written gives the same tree again, where it nests at most 255 levels.
//!
//! ```
//! let documents = YamlLoader::load_from_str(alloc, "{name: x, ports: [80, 443], ratio: 2.50}")?;
//! let document = documents.first().ok_or("no document")?;
//! let mut text = String::new(alloc);
//! write_json(alloc, document, &mut text)?;
//! assert_eq!(rt;
//!     text.as_str(),
//!     r#"{"name":"x","ports":[80,443],"ratio":2.50}"#
//! );
//! ```
//!
//! [`at_once`] goes the other way: it reads a JSON text in one pass, without tokens and events.
#![tactic(auto)]

pub mod at_once;
mod behind;
mod cursor;
mod deep;
mod digits;
mod error;
mod find;
mod integer;
pub mod laws;
mod level;
mod levels;
mod likely;
mod nest;
mod number;
mod open;
mod place;
mod reader;
mod run;
mod scalar;
mod shallow;
mod stop;
mod string;
mod text;
mod value;
mod white;

ghost use Rattle.std.specs.Prelude.{◌*◌, ◌≤◌, ◌^◌, None, Some, OnOk, IfErr};
ghost use Rattle.defs_layout.specs.HasJson.{HasJson, nesting};
ghost use Rattle.defs_layout.specs.JsonText.{json_text};
ghost use Rattle.yaml_tree.specs.View.{view};
ghost use Rattle.yaml_json.specs.Outcome.{Leaves};
ghost use Rattle.yaml_json.specs.Left.{IsTooWide};

use crate::deep::write_deep;
use crate::shallow::is_shallow;
use crate::value::write_value;
use crate::white::{Compact, Indented, Spacing};
pub use error::{JsonError, NoJson, Reason, Step};
use std::alloc::Global;
use yaml_emitter::Writer;
use yaml_tree::Yaml;

/// The most levels of arrays and hashes of a tree that is written by a recursion.
const SHALLOW: usize = 128;

/// Writes the JSON text of a tree without white space. If a node has none, or memory is refused, nothing is written; if
/// the writer refuses a part of the text, a beginning of it was written. However deep the tree is, it takes no more
/// stack than one of 128 levels. Memory is taken only for a tree that nests deeper than that, and for the way to a node
/// without a text.
pub fn write_json<W: Writer>(alloc: Global, tree: &Yaml, out: &mut W) -> Result<(), JsonError>
    ensures has_json { OnOk result (HasJson (view tree.now)) }
    ensures written { OnOk result (W.calls_give out.old (json_text None 0 (view tree.now)) out.new) }
    ensures err { IfErr result (Leaves W.put_gives W.put_leaves W.calls_leave ⊥ (view tree.now) (json_text None 0 (view tree.now)) out.old out.new) }
{
    write_laid_out(alloc, tree, Compact, out)
}

/// The same with each item and each member on a line of its own, indented by so many spaces a level, and a space after
/// each colon. An empty array or object stays on its line. An `Err` comes also where a line would need 2^64 spaces.
pub fn write_json_indented<W: Writer>(
    alloc: Global,
    tree: &Yaml,
    width: usize,
    out: &mut W,
) -> Result<(), JsonError>
    ensures has_json { OnOk result (HasJson (view tree.now)) }
    ensures written { OnOk result (W.calls_give out.old (json_text (Some width) 0 (view tree.now)) out.new) }
    ensures err { IfErr result (Leaves W.put_gives W.put_leaves W.calls_leave (2 ^ 64 ≤ width * nesting (view tree.now)) (view tree.now)
        (json_text (Some width) 0 (view tree.now)) out.old out.new) }
{
    write_laid_out(alloc, tree, Indented { width }, out)
}

// A shallow tree is written by a recursion, which takes no memory. A deep one is written by loops, which take no stack. They
// also find the first node without a JSON text.
#[tactic(auto, using(crate::proofs::GivenLemmas::has_json, crate::proofs::ShallowLemmas::shallow, crate::proofs::ShallowLemmas::not_shallow))]
fn write_laid_out<W: Writer, S: Spacing>(
    alloc: Global,
    tree: &Yaml,
    spacing: S,
    out: &mut W,
) -> Result<(), JsonError>
    ensures has_json { OnOk result (HasJson (view tree.now)) }
    ensures written { OnOk result (W.calls_give out.old (json_text (S.indentation spacing) 0 (view tree.now)) out.new) }
    ensures err { IfErr result (Leaves W.put_gives W.put_leaves W.calls_leave (IsTooWide (S.indentation spacing) 0 (nesting (view tree.now))) (view tree.now)
        (json_text (S.indentation spacing) 0 (view tree.now)) out.old out.new) }
{
    if !is_shallow(tree, SHALLOW) {
        return write_deep(alloc, tree, spacing, out);
    }
    match write_value(out, spacing, 0, tree) {
        Ok(()) => Ok(()),
        Err(error) => Err(JsonError::Refused(error)),
    }
}
