//! Contents and lookups of nodes.
use crate::made::tree;
use std::alloc::Global;
use std::process::Abort;
use std::test::Fail;
use test_rows::Report;
use yaml_tree::{Array, Yaml};

// The functions below have no contract, so that many questions make no long proof.

fn scalar_words(alloc: Global, node: &Yaml) -> Result<String, Fail> {
    Ok(format!(in alloc;
        "{:?} {:?} {:?}",
        node.as_bool(),
        node.as_i64(),
        node.as_str()
    )?)
}

fn collection_words(alloc: Global, node: &Yaml) -> Result<String, Fail> {
    Ok(format!(in alloc; "{:?} {:?}", node.as_vec(), node.as_hash())?)
}

fn kind_words(alloc: Global, node: &Yaml) -> Result<String, Fail> {
    let is_empty = format!(in alloc; "{} {}", node.is_null(), node.is_badvalue())?;
    Ok(format!(in alloc; "{is_empty} {} {}", node.is_array(), node.is_hash())?)
}

fn borrowed_or_words(alloc: Global, node: &Yaml, other: &Yaml) -> Result<String, Fail> {
    Ok(format!(in alloc; "{:?}", node.borrowed_or(other))?)
}

fn or_words(alloc: Global, node: Yaml, other: Yaml) -> Result<String, Fail> {
    Ok(format!(in alloc; "{:?}", node.or(other))?)
}

fn items_words(alloc: Global, node: Yaml) -> Result<String, Fail> {
    let mut words = String::new(alloc);
    for item in node {
        words.push_str(format!(in alloc; "{item:?} ")?.as_str())?;
    }
    Ok(words)
}

// An array's length, whether it is empty, its second item and the one after its end; then the array that is made anew of
// its nodes.
fn array_words(alloc: Global, node: Yaml) -> Result<String, Fail> {
    let Some(items) = node.into_vec() else {
        return Ok(String::from_str(alloc, "no array")?);
    };
    let words = format!(in alloc;
        "{} {} {:?} {:?}",
        items.len(),
        items.is_empty(),
        items.get(1),
        items.get(2)
    )?;
    let again = Array::from_vec(items.into_vec());
    Ok(format!(in alloc; "{words} {again:?}")?)
}

fn key_words(alloc: Global, node: &Yaml, key: &str) -> Result<String, Fail> {
    Ok(format!(in alloc; "{:?} {}", node.get_key(key), node.has_key(key))?)
}

fn index_words(alloc: Global, node: &Yaml, index: usize) -> Result<String, Fail> {
    Ok(format!(in alloc; "{:?} {}", node.get_index(index), node.has_index(index))?)
}

fn copy_words(alloc: Global, node: &Yaml) -> Result<String, Fail> {
    let copy = node.clone(alloc)?;
    let is_equal = copy == *node;
    Ok(format!(in alloc; "{is_equal} {copy:?}")?)
}

// What a tree returns for a question.
fn answer(alloc: Global, node: Yaml, question: &str) -> Result<String, Fail> {
    match question {
        "scalar" => scalar_words(alloc, &node),
        "collection" => collection_words(alloc, &node),
        "kind" => kind_words(alloc, &node),
        "into_iter" => items_words(alloc, node),
        "array" => array_words(alloc, node),
        "clone" => copy_words(alloc, &node),
        _ => into_words(alloc, node, question),
    }
}

fn into_words(alloc: Global, node: Yaml, question: &str) -> Result<String, Fail> {
    match question {
        "into_bool" => Ok(format!(in alloc; "{:?}", node.into_bool())?),
        "into_i64" => Ok(format!(in alloc; "{:?}", node.into_i64())?),
        "into_string" => Ok(format!(in alloc; "{:?}", node.into_string())?),
        "into_vec" => Ok(format!(in alloc; "{:?}", node.into_vec())?),
        "into_hash" => Ok(format!(in alloc; "{:?}", node.into_hash())?),
        _ => Err(Fail::from("no question")),
    }
}

// A tree and a question, which name the row, and the answer.
type Row = (&'static str, &'static str, &'static str);

const ANSWERS: [Row; 32] = [
    ("flag", "scalar", "Some(false) None None"),
    ("number", "scalar", "None Some(3) None"),
    ("b", "scalar", "None None Some(\"b\")"),
    ("real", "scalar", "None None None"),
    ("items", "scalar", "None None None"),
    ("items", "collection", "Some([Integer(1), Integer(2)]) None"),
    (
        "pairs",
        "collection",
        "None Some({Integer(0): Hash({String(\"important\"): Boolean(true)}), String(\"a\"): Array([Integer(1), Integer(2)]), String(\"c\"): String(\"d\")})",
    ),
    ("b", "collection", "None None"),
    ("null", "kind", "true false false false"),
    ("bad", "kind", "false true false false"),
    ("items", "kind", "false false true false"),
    ("pairs", "kind", "false false false true"),
    ("b", "kind", "false false false false"),
    ("flag", "into_bool", "Some(false)"),
    ("null", "into_bool", "None"),
    ("number", "into_i64", "Some(3)"),
    ("real", "into_i64", "None"),
    ("b", "into_string", "Some(\"b\")"),
    ("null", "into_string", "None"),
    ("real", "into_string", "None"),
    ("items", "into_vec", "Some([Integer(1), Integer(2)])"),
    ("pairs", "into_vec", "None"),
    (
        "pairs",
        "into_hash",
        "Some({Integer(0): Hash({String(\"important\"): Boolean(true)}), String(\"a\"): Array([Integer(1), Integer(2)]), String(\"c\"): String(\"d\")})",
    ),
    ("items", "into_hash", "None"),
    (
        "items",
        "array",
        "2 false Some(Integer(2)) None [Integer(1), Integer(2)]",
    ),
    ("items", "into_iter", "Integer(1) Integer(2) "),
    ("pairs", "into_iter", ""),
    ("b", "into_iter", ""),
    ("b", "clone", "true String(\"b\")"),
    ("real", "clone", "true Real(\"2.5\")"),
    ("items", "clone", "true Array([Integer(1), Integer(2)])"),
    (
        "pairs",
        "clone",
        "true Hash({Integer(0): Hash({String(\"important\"): Boolean(true)}), String(\"a\"): Array([Integer(1), Integer(2)]), String(\"c\"): String(\"d\")})",
    ),
];

// Each tree answers as its row says. All rows that fail are told.
fn answers_hold(rt: &(impl Abort + AllocGlobal), rows: &[Row]) -> Result<(), Fail> {
    let mut report = Report::new(rt.alloc());
    for (name, question, want) in rows {
        let found = answer(rt.alloc(), tree(rt.alloc(), name)?, question)?;
        report.compare(name, question, found.as_str(), want)?;
    }
    assert!(rt; report.is_empty(), "{report}");
    Ok(())
}

#[test]
fn nodes_are_asked(rt: HostRuntime) -> Result<(), Fail> {
    answers_hold(&rt, &ANSWERS)
}

// What it shows, a tree, another, and which of them `or` and `borrowed_or` give.
type Choice = (&'static str, &'static str, &'static str, &'static str);

const CHOICES: [Choice; 5] = [
    ("a number for a bad value", "bad", "number", "Integer(3)"),
    ("a Boolean for null", "null", "flag", "Boolean(false)"),
    ("a number before a bad value", "number", "bad", "Integer(3)"),
    ("a number before a Boolean", "number", "flag", "Integer(3)"),
    ("a bad value in place of null", "null", "bad", "BadValue"),
];

fn borrowed_choice(alloc: Global, name: &str, other: &str) -> Result<String, Fail> {
    borrowed_or_words(alloc, &tree(alloc, name)?, &tree(alloc, other)?)
}

fn owned_choice(alloc: Global, name: &str, other: &str) -> Result<String, Fail> {
    or_words(alloc, tree(alloc, name)?, tree(alloc, other)?)
}

// Both calls choose as each row says. All rows that fail are told.
fn choices_hold(rt: &(impl Abort + AllocGlobal), rows: &[Choice]) -> Result<(), Fail> {
    let mut report = Report::new(rt.alloc());
    for (name, node, other, want) in rows {
        let borrowed = borrowed_choice(rt.alloc(), node, other)?;
        report.compare(name, "borrowed", borrowed.as_str(), want)?;
        let owned = owned_choice(rt.alloc(), node, other)?;
        report.compare(name, "owned", owned.as_str(), want)?;
    }
    assert!(rt; report.is_empty(), "{report}");
    Ok(())
}

#[test]
fn the_first_that_is_a_value_is_chosen(rt: HostRuntime) -> Result<(), Fail> {
    choices_hold(&rt, &CHOICES)
}

// What it shows, a tree, a key, and what `get_key` and `has_key` answer.
type Key = (&'static str, &'static str, &'static str, &'static str);

const KEYS: [Key; 5] = [
    (
        "a key with an array",
        "pairs",
        "a",
        "Some(Array([Integer(1), Integer(2)])) true",
    ),
    (
        "a key with a string",
        "pairs",
        "c",
        "Some(String(\"d\")) true",
    ),
    ("a key of an inner hash", "pairs", "important", "None false"),
    ("an integer's digits", "pairs", "0", "None false"),
    ("a key of an array", "items", "a", "None false"),
];

// Each key is looked up as its row says. All rows that fail are told.
fn keys_hold(rt: &(impl Abort + AllocGlobal), rows: &[Key]) -> Result<(), Fail> {
    let mut report = Report::new(rt.alloc());
    for (name, node, key, want) in rows {
        let found = key_words(rt.alloc(), &tree(rt.alloc(), node)?, key)?;
        report.compare(name, "looked up", found.as_str(), want)?;
    }
    assert!(rt; report.is_empty(), "{report}");
    Ok(())
}

#[test]
fn nodes_are_looked_up_by_keys(rt: HostRuntime) -> Result<(), Fail> {
    keys_hold(&rt, &KEYS)
}

// What it shows, a tree, an index, and what `get_index` and `has_index` answer.
type Index = (&'static str, &'static str, usize, &'static str);

const INDICES: [Index; 7] = [
    (
        "an integer that is a key",
        "pairs",
        0,
        "Some(Hash({String(\"important\"): Boolean(true)})) true",
    ),
    ("an integer that is no key", "pairs", 1, "None false"),
    (
        "an index that is no i64, of a hash",
        "pairs",
        9223372036854775808,
        "None false",
    ),
    ("the last item", "items", 1, "Some(Integer(2)) true"),
    ("an index after the last", "items", 2, "None false"),
    (
        "an index that is no i64, of an array",
        "items",
        9223372036854775808,
        "None false",
    ),
    ("an index of a string", "b", 0, "None false"),
];

// Each index is looked up as its row says. All rows that fail are told.
fn indices_hold(rt: &(impl Abort + AllocGlobal), rows: &[Index]) -> Result<(), Fail> {
    let mut report = Report::new(rt.alloc());
    for (name, node, index, want) in rows {
        let found = index_words(rt.alloc(), &tree(rt.alloc(), node)?, *index)?;
        report.compare(name, "looked up", found.as_str(), want)?;
    }
    assert!(rt; report.is_empty(), "{report}");
    Ok(())
}

#[test]
fn nodes_are_looked_up_by_indices(rt: HostRuntime) -> Result<(), Fail> {
    indices_hold(&rt, &INDICES)
}

// Trees by their names, in the order of trees: variants as they are declared.
const ASCENDING: [&str; 9] = [
    "real", "number", "b", "c", "flag", "items", "pairs", "null", "bad",
];

// Each tree is above the one before. All that are not are told.
fn is_ascending(rt: &(impl Abort + AllocGlobal), names: &[&str]) -> Result<(), Fail> {
    let mut report = Report::new(rt.alloc());
    let mut below: Option<Yaml> = None;
    for name in names {
        let above = tree(rt.alloc(), name)?;
        if let Some(node) = &below {
            report.check(name, "above the one before", *node < above)?;
        }
        below = Some(above);
    }
    assert!(rt; report.is_empty(), "{report}");
    Ok(())
}

#[test]
fn nodes_are_ordered(rt: HostRuntime) -> Result<(), Fail> {
    is_ascending(&rt, &ASCENDING)
}
