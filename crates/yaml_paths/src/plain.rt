//! Nodes at the end of a path, and their values.
ghost use Rattle.std.specs.Prelude.{◌≡◌, Some, None, IfOk, IfErr, map, option_map};
ghost use Rattle.yaml_paths.specs.Explained.{Explains, ExplainsItem, ExplainsList, ExplainsOther};
ghost use Rattle.yaml_paths.specs.Kinds.{kind_of};
ghost use Rattle.yaml_paths.specs.NoNode.{fault_at, reason_at, told};
ghost use Rattle.yaml_paths.specs.Optional.{IsRead, IsReadOr};
ghost use Rattle.yaml_paths.specs.Path.{node_at, step_view, steps_of};
ghost use Rattle.yaml_paths.specs.declared.error.Reason.TheVariants.{Other};
ghost use Rattle.yaml_tree.specs.View.{view, array_tree};

use crate::error::{ReadError, Reason};
use crate::from_yaml::FromYaml;
use crate::kind::Kind;
use crate::step::{Step, part};
use std::alloc::Global;
use yaml_tree::{Array, Yaml};

/// The node at the end of a path, or `None` if a step leads to no node. The empty path leads to the node itself.
pub fn at<'a>(node: &'a Yaml, path: &[Step<'_>]) -> Option<&'a Yaml>
    ensures { option_map (λ y. view y.now) result ≡ node_at (steps_of path.now) (view node.now) }
{
    let mut node = node;
    'steps: for step in path {
        node = part(node, *step)?;
    }
    Some(node)
}

/// The value of the node at the end of a path, as a `bool`, an `i64` or a `&str`.
///
/// # Errors
///
/// - `Missing` if the path leads to no node: a hash has no such key, or an array no such item. Null counts as an empty hash
///   and as an empty array, so in a section that is left empty all keys are missing. The error has the path up to the
///   first step that leads to no node.
/// - `Other` if the node is of another kind, null included, and if a node on the way is neither null nor what its next
///   step wants: a hash for a key, an array for an item. Then the error has the path of that node.
pub fn read<'a, 'p, T: FromYaml<'a>>(
    node: &'a Yaml,
    path: &'p [Step<'p>],
) -> Result<T, ReadError<'p>>
    ensures value { IfOk result (λ v. node_at (steps_of path.now) (view node.now) ≡ Some (T.tree v)) }
    ensures err { IfErr result (Explains T.wanted (steps_of path.now) (view node.now)) }
    ensures position { IfErr result (λ e. e.position ≡ None) }
{
    let found = match find(node, path) {
        Ok(found) => found,
        Err(error) => return Err(error),
    };
    match T::from_yaml(found) {
        Some(value) => Ok(value),
        None => Err(other(path, None, T::kind(), found)),
    }
}

/// The value as [`read`] gives it, or `None` if it is missing.
///
/// # Errors
///
/// `Other` as of [`read`]: what is there and is of another kind is an error, on the way and at the path's end. Null at the
/// path's end is such a node.
pub fn read_optional<'a, 'p, T: FromYaml<'a>>(
    node: &'a Yaml,
    path: &'p [Step<'p>],
) -> Result<Option<T>, ReadError<'p>>
    ensures value { IfOk result (IsRead T.tree (steps_of path.now) (view node.now)) }
    ensures err { IfErr result (ExplainsOther T.wanted (steps_of path.now) (view node.now)) }
    ensures position { IfErr result (λ e. e.position ≡ None) }
{
    match read(node, path) {
        Ok(value) => Ok(Some(value)),
        Err(error) => match error.reason {
            Reason::Missing => Ok(None),
            _ => Err(error),
        },
    }
}

/// The value as [`read`] gives it, or this one if it is missing.
///
/// ```
/// let documents = YamlLoader::load_from_str(alloc, "server:\n  host: a\n")?;
/// let settings = documents.first().ok_or("no document")?;
/// let Ok(port) = read_or(settings, PORT, 8080) else {
///     return Err(Fail::from("another kind"));
/// };
/// assert_eq!(rt; port, 8080);
/// ```
///
/// # Errors
///
/// Those of [`read_optional`].
pub fn read_or<'a, 'p, T: FromYaml<'a>>(
    node: &'a Yaml,
    path: &'p [Step<'p>],
    default: T,
) -> Result<T, ReadError<'p>>
    ensures value { IfOk result (IsReadOr default T.tree (steps_of path.now) (view node.now)) }
    ensures err { IfErr result (ExplainsOther T.wanted (steps_of path.now) (view node.now)) }
    ensures position { IfErr result (λ e. e.position ≡ None) }
{
    match read_optional(node, path) {
        Ok(Some(value)) => Ok(value),
        Ok(None) => Ok(default),
        Err(error) => Err(error),
    }
}

/// The values of all items of the array at the end of a path.
///
/// # Errors
///
/// As those of [`read`], where an array is wanted. `Other` with a place in `item` if an item is of another kind: the first
/// such item. `OutOfMemory` if memory was refused for the list; an empty array asks for none.
pub fn read_list<'a, 'p, T: FromYaml<'a>>(
    alloc: Global,
    node: &'a Yaml,
    path: &'p [Step<'p>],
) -> Result<Vec<T>, ReadError<'p>>
    ensures values { IfOk result (λ v. node_at (steps_of path.now) (view node.now) ≡ Some (array_tree (map T.tree v.items))) }
    ensures err { IfErr result (ExplainsList T.wanted (steps_of path.now) (view node.now)) }
    ensures position { IfErr result (λ e. e.position ≡ None) }
{
    match find(node, path) {
        Ok(Yaml::Array(items)) => values(alloc, items, path),
        Ok(found) => Err(other(path, None, Kind::Array, found)),
        Err(error) => Err(error),
    }
}

// The values of all items.
fn values<'a, 'p, T: FromYaml<'a>>(
    alloc: Global,
    items: &'a Array,
    path: &'p [Step<'p>],
) -> Result<Vec<T>, ReadError<'p>>
    ensures values { IfOk result (λ v. items.now ≡ map T.tree v.items) }
    ensures err { IfErr result (ExplainsItem T.wanted (steps_of path.now) items.now) }
    ensures position { IfErr result (λ e. e.position ≡ None) }
{
    let mut values = Vec::new(alloc);
    'items: for item in items {
        let Some(value) = T::from_yaml(item) else {
            return Err(other(path, Some(values.len()), T::kind(), item));
        };
        if values.push(value).is_err() {
            return Err(ReadError::new(path, None, Reason::OutOfMemory));
        }
    }
    Ok(values)
}

// The node at the end of a path, or why there is none.
fn find<'a, 'p>(node: &'a Yaml, path: &'p [Step<'p>]) -> Result<&'a Yaml, ReadError<'p>>
    ensures found { IfOk result (λ y. node_at (steps_of path.now) (view node.now) ≡ Some (view y.now)) }
    ensures err { IfErr result (λ e. fault_at (steps_of path.now) (view node.now) ≡ Some (steps_of e.path.now, e.reason)) }
    ensures item { IfErr result (λ e. e.item ≡ None) }
    ensures position { IfErr result (λ e. e.position ≡ None) }
{
    let mut node = node;
    'steps: for (place, step) in path.iter().enumerate() {
        match part(node, *step) {
            Some(found) => node = found,
            None => return Err(nowhere(*step, node, &path[..place], &path[..=place])),
        }
    }
    Ok(node)
}

// The error of a step that leads from a node to none, by the paths to the node and one step further.
fn nowhere<'p>(
    step: Step<'_>,
    node: &Yaml,
    there: &'p [Step<'p>],
    further: &'p [Step<'p>],
) -> ReadError<'p>
    ensures path { steps_of result.path.now ≡ told result.reason (steps_of there.now) (steps_of further.now) }
    ensures item { result.item ≡ None }
    ensures position { result.position ≡ None }
    ensures reason { result.reason ≡ reason_at (step_view step.entry) (kind_of (view node.now)) }
{
    match reason_at(step, Kind::of(node)) {
        Reason::Missing => ReadError::new(further, None, Reason::Missing),
        reason => ReadError::new(there, None, reason),
    }
}

// Why a step leads from a node of this kind to none.
fn reason_at(step: Step<'_>, found: Kind) -> Reason
    ensures { result ≡ reason_at (step_view step.entry) found }
{
    match (step, found) {
        (_, Kind::Null) | (Step::Key(_), Kind::Hash) | (Step::Index(_), Kind::Array) =>
            Reason::Missing,
        (Step::Key(_), found) => Reason::Other {
            wanted: Kind::Hash,
            found,
        },
        (Step::Index(_), found) => Reason::Other {
            wanted: Kind::Array,
            found,
        },
    }
}

// The error of a node that is of another kind.
fn other<'p>(path: &'p [Step<'p>], item: Option<usize>, wanted: Kind, node: &Yaml) -> ReadError<'p>
    ensures { result ≡ record { path = path.entry; item = item; position = None; reason = Other wanted (kind_of (view node.now)) } }
{
    let found = Kind::of(node);
    ReadError::new(path, item, Reason::Other { wanted, found })
}
