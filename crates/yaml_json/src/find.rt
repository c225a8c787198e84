//! How deep a tree is, or the first node that has no JSON text.
ghost use Rattle.std.specs.Prelude.{◌≡◌, ◌∷◌, ◌+◌, ◌≤◌, None, Some, true, false, chars, IfOk, IfErr, IfSome, IfNone};
ghost use Rattle.defs_layout.specs.Fault.{here, are_strings, step_of, first_fault};
ghost use Rattle.defs_layout.specs.HasJson.{nesting};
ghost use Rattle.defs_tree.specs.Box.{is_block};
ghost use Rattle.defs_tree.specs.Tree.{real, pairs_of};
ghost use Rattle.defs_tree.specs.Typing.{is_string};
ghost use Rattle.yaml_json.specs.Found.{fault_of, reason_view, step_view, string_step};
ghost use Rattle.yaml_json.specs.Level.{left_in, tree_left};
ghost use Rattle.yaml_json.specs.Search.{ArePlain, IsMet, IsSeen, Meets, Names, fault_in, fault_left, last_step, step_in};
ghost use Rattle.yaml_tree.specs.View.{view};

use crate::error::{JsonError, NoJson, Reason, Step};
use crate::level::Level;
use crate::number::is_json_real;
use std::alloc::{AllocError, Global};
use yaml_emitter::has_parts;
use yaml_tree::{Hash, Levels, Yaml};

/// How many arrays and hashes with parts stand one in another, or the error that names the first node without a JSON
/// text. Memory is taken for the path to that node and for the levels that wait, so none where it is the root.
pub(crate) fn count_levels(alloc: Global, tree: &Yaml) -> Result<usize, JsonError>
    ensures whole { IfOk result (λ _. first_fault (view tree.now) ≡ None) }
    ensures no_deeper { IfOk result (λ n. nesting (view tree.now) ≤ n + 1) }
    ensures no_higher { IfOk result (λ n. n ≤ nesting (view tree.now)) }
    ensures names { IfErr result (λ e. Names (first_fault (view tree.now)) e) }
{
    match look(tree) {
        Looked::Plain => Ok(0),
        Looked::Deep => count_levels_in(alloc, tree),
        Looked::Faulty(reason) => Err(JsonError::NoJson(NoJson {
            path: Vec::new(alloc),
            reason,
        })),
    }
}

fn count_levels_in(alloc: Global, tree: &Yaml) -> Result<usize, JsonError>
    requires parts { is_block (view tree.now) ≡ true }
    requires fault { first_fault (view tree.now) ≡ fault_left 0 (view tree.now) }
    ensures whole { IfOk result (λ _. first_fault (view tree.now) ≡ None) }
    ensures no_deeper { IfOk result (λ n. nesting (view tree.now) ≤ n + 1) }
    ensures no_higher { IfOk result (λ n. n ≤ nesting (view tree.now)) }
    ensures names { IfErr result (λ e. Names (first_fault (view tree.now)) e) }
{
    let mut level = Level::of(tree);
    let mut waiting = Levels::new(alloc, level);
    let mut depth: usize = 1;
    let mut deepest: usize = 1;
    'levels: loop {
        let Some(met) = next_met(level) else {
            let Some(outer) = waiting.pop() else {
                return Ok(deepest);
            };
            level = outer;
            depth -= 1;
            continue;
        };
        level.passed = met.passed;
        if let Some(reason) = met.reason {
            return Err(no_json(alloc, waiting, level, reason));
        }
        let Some(deeper) = depth.checked_add(1) else {
            return Err(JsonError::OutOfMemory);
        };
        let Ok(()) = waiting.push(level) else {
            return Err(JsonError::OutOfMemory);
        };
        level = Level::of(met.node);
        depth = deeper;
        deepest = deepest.max(deeper);
    }
}

/// A part of a level that has parts itself, or for this reason no text.
#[derive(Clone, Copy)]
struct Met<'a> {
    node: &'a Yaml,
    /// How many nodes of the level's row are passed with it.
    passed: usize,
    reason: Option<Reason>,
}

// The next of a level.
fn next_met(level: Level<'_>) -> Option<Met<'_>>
    ensures met { IfSome result (λ m. IsMet (view m.node.now) m.reason) }
    ensures meets { IfSome result (λ m. Meets (tree_left level.entry) level.entry.passed (step_in level.entry.is_hash level.entry.row.now m.passed) (view m.node.now)
        (left_in level.entry.is_hash level.entry.row.now m.passed) m.passed) }
    ensures end { IfNone result (ArePlain level.entry.passed (tree_left level.entry)) }
{
    if level.is_hash {
        next_met_value(level.row, level.passed)
    } else {
        next_met_item(level.row, level.passed)
    }
}

fn next_met_item(row: &[Yaml], passed: usize) -> Option<Met<'_>>
    ensures met { IfSome result (λ m. IsMet (view m.node.now) m.reason) }
    ensures meets { IfSome result (λ m. Meets (left_in false row.now passed) passed (step_in false row.now m.passed) (view m.node.now) (left_in false row.now m.passed) m.passed) }
    ensures end { IfNone result (ArePlain passed (left_in false row.now passed)) }
{
    let mut at = passed;
    'at: while at < row.len() {
        let node = &row[at];
        at += 1;
        match look(node) {
            Looked::Plain => {}
            Looked::Deep => {
                return Some(Met {
                    node,
                    passed: at,
                    reason: None,
                });
            }
            Looked::Faulty(reason) => {
                return Some(Met {
                    node,
                    passed: at,
                    reason: Some(reason),
                });
            }
        }
    }
    None
}

// The keys are strings, as was seen before.
fn next_met_value(row: &[Yaml], passed: usize) -> Option<Met<'_>>
    ensures met { IfSome result (λ m. IsMet (view m.node.now) m.reason) }
    ensures meets { IfSome result (λ m. Meets (left_in true row.now passed) passed (step_in true row.now m.passed) (view m.node.now) (left_in true row.now m.passed) m.passed) }
    ensures end { IfNone result (ArePlain passed (left_in true row.now passed)) }
{
    let mut at = passed;
    'at: while at < row.len() {
        if at + 1 == row.len() {
            return None;
        }
        let value = &row[at + 1];
        at += 2;
        match look(value) {
            Looked::Plain => {}
            Looked::Deep => {
                return Some(Met {
                    node: value,
                    passed: at,
                    reason: None,
                });
            }
            Looked::Faulty(reason) => {
                return Some(Met {
                    node: value,
                    passed: at,
                    reason: Some(reason),
                });
            }
        }
    }
    None
}

/// What a look at a node alone says.
enum Looked {
    /// It has a text, and no parts.
    Plain,
    /// It has parts, and its faults are theirs.
    Deep,
    /// It has no text.
    Faulty(Reason),
}

#[tactic(auto, unfolding(defs_text::specs::Text::string_chars))]
fn look(node: &Yaml) -> Looked
    ensures { IsSeen (view node.now) result }
{
    match node {
        Yaml::Real(text) => look_at_real(text.as_str()),
        Yaml::Array(_) => look_at_parts(node),
        Yaml::Hash(pairs) => {
            if has_string_keys(pairs) {
                look_at_parts(node)
            } else {
                Looked::Faulty(Reason::Key)
            }
        }
        Yaml::Alias(_) => Looked::Faulty(Reason::Alias),
        Yaml::BadValue => Looked::Faulty(Reason::BadValue),
        Yaml::Integer(_) | Yaml::String(_) | Yaml::Boolean(_) | Yaml::Null => Looked::Plain,
    }
}

fn look_at_real(text: &str) -> Looked
    ensures { IsSeen (real (chars text.now)) result }
{
    if is_json_real(text) {
        Looked::Plain
    } else {
        Looked::Faulty(Reason::Number)
    }
}

// An array, or a hash whose keys are strings.
fn look_at_parts(node: &Yaml) -> Looked
    requires { first_fault (view node.now) ≡ fault_left 0 (view node.now) }
    ensures { IsSeen (view node.now) result }
{
    if has_parts(node) {
        Looked::Deep
    } else {
        Looked::Plain
    }
}

fn has_string_keys(pairs: &Hash) -> bool
    ensures { result ≡ are_strings (pairs_of pairs.now) }
{
    'keys: for (key, _) in pairs.iter() {
        if !is_string(key) {
            return false;
        }
    }
    true
}

pub(crate) fn is_string(node: &Yaml) -> bool
    ensures { result ≡ is_string (view node.now) }
{
    matches!(node, Yaml::String(_))
}

// The error that names the last part that was passed in a level, inside those that wait.
#[tactic(auto, using(crate::proofs::SearchLemmas::is_below))]
fn no_json(alloc: Global, waiting: Levels<Level<'_>>, level: Level<'_>, reason: Reason) -> JsonError
    ensures { Names (fault_in (level.entry ∷ waiting.entry) (here (reason_view reason))) result }
{
    match fault_at(alloc, waiting, level, reason) {
        Ok(fault) => JsonError::NoJson(fault),
        Err(_) => JsonError::OutOfMemory,
    }
}

fn fault_at(
    alloc: Global,
    mut waiting: Levels<Level<'_>>,
    level: Level<'_>,
    reason: Reason,
) -> Result<NoJson, AllocError>
    ensures { IfOk result (λ n. fault_in (level.entry ∷ waiting.entry) (here (reason_view reason)) ≡ Some (fault_of n)) }
{
    let mut steps = Vec::new(alloc);
    steps.push(last_step(alloc, level)?)?;
    'outer: while let Some(outer) = waiting.pop() {
        steps.push(last_step(alloc, outer)?)?;
    }
    steps.reverse();
    Ok(NoJson {
        path: steps,
        reason,
    })
}

// The step to the last part that was passed in a level.
fn last_step(alloc: Global, level: Level<'_>) -> Result<Step, AllocError>
    ensures { IfOk result (λ s. step_view s ≡ last_step level.entry) }
{
    if !level.is_hash {
        return Ok(Step::Index(level.passed.saturating_sub(1)));
    }
    match level.row.get(level.passed.saturating_sub(2)) {
        Some(key) => Ok(Step::Key(text_of(alloc, key)?)),
        None => Ok(Step::Key(String::new(alloc))),
    }
}

// The text of a key that is a string.
#[tactic(auto, unfolding(defs_text::specs::Text::string_chars))]
fn text_of(alloc: Global, key: &Yaml) -> Result<String, AllocError>
    ensures { IfOk result (λ s. string_step s ≡ step_of (view key.now)) }
{
    match key {
        Yaml::String(text) => String::from_str(alloc, text.as_str()),
        _ => Ok(String::new(alloc)),
    }
}
