//! The same for nodes with positions.
ghost use Rattle.std.specs.Prelude.{◌≡◌, Some, IfOk, IfErr, map, option_map};
ghost use Rattle.yaml_loader.specs.MarkedNode.{tree_of, node_of};
ghost use Rattle.yaml_paths.specs.Explained.{Explains, ExplainsList, ExplainsOther};
ghost use Rattle.yaml_paths.specs.Marked.{marked_step_from, marked_at, deepest, position_of, IsAt};
ghost use Rattle.yaml_paths.specs.Optional.{IsRead, IsReadOr};
ghost use Rattle.yaml_paths.specs.Path.{node_at, step_view, steps_of};
ghost use Rattle.yaml_tree.specs.View.{array_tree};

use crate::error::ReadError;
use crate::from_yaml::FromYaml;
use crate::plain;
use crate::step::Step;
use std::alloc::Global;
use yaml_chars::Marker;
use yaml_loader::marked::Marked;

/// The node at the end of a path, or `None` if a step leads to no node.
pub fn at<'a>(node: Marked<'a>, path: &[Step<'_>]) -> Option<Marked<'a>>
    ensures { option_map node_of result ≡ marked_at (steps_of path.now) (node_of node.entry) }
{
    let mut node = node;
    'steps: for step in path {
        node = part(node, *step)?;
    }
    Some(node)
}

/// The value of the node at the end of a path, as a `bool`, an `i64` or a `&str`.
///
/// # Errors
///
/// Those of [`read`](crate::read), with the position.
pub fn read<'a, 'p, T: FromYaml<'a>>(
    node: Marked<'a>,
    path: &'p [Step<'p>],
) -> Result<T, ReadError<'p>>
    ensures value { IfOk result (λ v. node_at (steps_of path.now) (tree_of node.entry) ≡ Some (T.tree v)) }
    ensures err { IfErr result (Explains T.wanted (steps_of path.now) (tree_of node.entry)) }
    ensures position { IfErr result (IsAt (steps_of path.now) (node_of node.entry)) }
{
    match plain::read(node.yaml(), path) {
        Ok(value) => Ok(value),
        Err(error) => Err(error.with_position(position(node, path, error.item))),
    }
}

/// The value as [`read`] gives it, or `None` if it is missing.
///
/// # Errors
///
/// Those of [`read_optional`](crate::read_optional), with the position.
pub fn read_optional<'a, 'p, T: FromYaml<'a>>(
    node: Marked<'a>,
    path: &'p [Step<'p>],
) -> Result<Option<T>, ReadError<'p>>
    ensures value { IfOk result (IsRead T.tree (steps_of path.now) (tree_of node.entry)) }
    ensures err { IfErr result (ExplainsOther T.wanted (steps_of path.now) (tree_of node.entry)) }
    ensures position { IfErr result (IsAt (steps_of path.now) (node_of node.entry)) }
{
    match plain::read_optional(node.yaml(), path) {
        Ok(value) => Ok(value),
        Err(error) => Err(error.with_position(position(node, path, error.item))),
    }
}

/// The value as [`read`] gives it, or this one if it is missing.
///
/// ```
/// let documents = load_marked(alloc, "server: oops\n")?;
/// let document = documents.first().ok_or("no document")?;
/// let Err(error) = marked::read_or(document, PORT, 8080) else {
///     return Err(Fail::from("a number"));
/// };
/// let text = format!(in alloc; "{error}")?;
/// let wanted = r#"line 1, column 9: $["server"]: a string, where a hash is wanted"#;
/// assert_eq!(rt; text.as_str(), wanted);
/// ```
///
/// # Errors
///
/// Those of [`read_or`](crate::read_or), with the position.
pub fn read_or<'a, 'p, T: FromYaml<'a>>(
    node: Marked<'a>,
    path: &'p [Step<'p>],
    default: T,
) -> Result<T, ReadError<'p>>
    ensures value { IfOk result (IsReadOr default T.tree (steps_of path.now) (tree_of node.entry)) }
    ensures err { IfErr result (ExplainsOther T.wanted (steps_of path.now) (tree_of node.entry)) }
    ensures position { IfErr result (IsAt (steps_of path.now) (node_of node.entry)) }
{
    match plain::read_or(node.yaml(), path, default) {
        Ok(value) => Ok(value),
        Err(error) => Err(error.with_position(position(node, path, error.item))),
    }
}

/// The values of all items of the array at the end of a path.
///
/// # Errors
///
/// Those of [`read_list`](crate::read_list), with the position.
pub fn read_list<'a, 'p, T: FromYaml<'a>>(
    alloc: Global,
    node: Marked<'a>,
    path: &'p [Step<'p>],
) -> Result<Vec<T>, ReadError<'p>>
    ensures values { IfOk result (λ v. node_at (steps_of path.now) (tree_of node.entry) ≡ Some (array_tree (map T.tree v.items))) }
    ensures err { IfErr result (ExplainsList T.wanted (steps_of path.now) (tree_of node.entry)) }
    ensures position { IfErr result (IsAt (steps_of path.now) (node_of node.entry)) }
{
    match plain::read_list(alloc, node.yaml(), path) {
        Ok(values) => Ok(values),
        Err(error) => Err(error.with_position(position(node, path, error.item))),
    }
}

// Where the last node along a path begins, or the item in it.
fn position(node: Marked<'_>, path: &[Step<'_>], item: Option<usize>) -> Marker
    ensures { result ≡ position_of item (steps_of path.now) (node_of node.entry) }
{
    let last = deepest(node, path);
    match item {
        Some(item) => deepest(last, &[Step::Index(item)]).marker(),
        None => last.marker(),
    }
}

// The last node along a path.
fn deepest<'a>(node: Marked<'a>, path: &[Step<'_>]) -> Marked<'a>
    ensures { node_of result ≡ deepest (steps_of path.now) (node_of node.entry) }
{
    let mut node = node;
    'steps: for step in path {
        match part(node, *step) {
            Some(found) => node = found,
            None => return node,
        }
    }
    node
}

// The node at the end of a step.
fn part<'a>(node: Marked<'a>, step: Step<'_>) -> Option<Marked<'a>>
    ensures { option_map node_of result ≡ marked_step_from (step_view step.entry) (node_of node.entry) }
{
    match step {
        Step::Key(key) => node.get_key(key),
        Step::Index(index) => node.get_index(index),
    }
}
