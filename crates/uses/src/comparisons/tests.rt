//! Hostile texts within limits: how many nodes the comparisons of keys visit while they are loaded. The trees that a load gives are
//! built anew, pair by pair.
use super::{binary_digits, keys_compared};
use std::alloc::Global;
use std::process::Abort;
use std::test::Fail;
use test_rows::Report;
use yaml_loader::limits::{Limits, load_with_limits};
use yaml_rust2::Yaml;
use yaml_rust2::yaml::{Array, Hash, Steps};

// The pairs of a hash so far, and how many nodes its largest keys have: those of 64 keys, the largest last. No lookup
// compares more keys.
#[derive(Drop)]
struct Built {
    pairs: Hash,
    largest: Vec<usize>,
}

impl Built {
    fn new(alloc: Global) -> Built {
        Built {
            pairs: Hash::new(alloc),
            largest: Vec::new(alloc),
        }
    }

    // How many nodes are visited, at most, until the place of a key of so many nodes is found. No key is compared twice, and
    // of two keys no more nodes are visited than the smaller one has. The fifteenth key is looked up twice.
    fn visited(&self, key: &Yaml, nodes: usize) -> usize {
        let compared = keys_compared(&self.pairs, key, &mut Steps::new());
        let first = self.largest.len().saturating_sub(compared);
        let mut visited = 0_usize;
        for other in &self.largest[first..] {
            visited = visited.saturating_add(nodes.min(*other));
        }
        if self.pairs.len() == 14 {
            visited = visited.saturating_mul(2);
        }
        visited
    }

    fn put(&mut self, alloc: Global, key: &Yaml, nodes: usize) -> Result<(), Fail> {
        let _ = self.pairs.put(key.clone(alloc)?, Yaml::Null)?;
        self.largest.push(nodes)?;
        self.largest.sort()?;
        if self.largest.len() > 64 {
            let _ = self.largest.remove(0);
        }
        Ok(())
    }
}

// How many nodes a tree has. How many are visited while it is made is added.
#[cycle(visit)]
fn visit(alloc: Global, node: &Yaml, levels: u16, visited: &mut usize) -> Result<usize, Fail> {
    if levels == 0 {
        return Err(Fail::from("too many levels"));
    }
    match node {
        Yaml::Array(items) => visit_items(alloc, items, levels - 1, visited),
        Yaml::Hash(pairs) => visit_pairs(alloc, pairs, levels - 1, visited),
        _ => Ok(1),
    }
}

#[cycle(visit)]
fn visit_items(
    alloc: Global,
    items: &Array,
    levels: u16,
    visited: &mut usize,
) -> Result<usize, Fail> {
    let mut nodes = 1_usize;
    for item in items.as_slice() {
        nodes = nodes.saturating_add(visit(alloc, item, levels, visited)?);
    }
    Ok(nodes)
}

#[cycle(visit)]
fn visit_pairs(
    alloc: Global,
    pairs: &Hash,
    levels: u16,
    visited: &mut usize,
) -> Result<usize, Fail> {
    let mut nodes = 1_usize;
    let mut built = Built::new(alloc);
    for (key, value) in pairs.iter() {
        let of_key = visit(alloc, key, levels, visited)?;
        *visited = visited.saturating_add(built.visited(key, of_key));
        built.put(alloc, key, of_key)?;
        let of_value = visit(alloc, value, levels, visited)?;
        nodes = nodes.saturating_add(of_key).saturating_add(of_value);
    }
    Ok(nodes)
}

// Whether a load of the text visits at most as many nodes as its trees have, times the binary digits of that number. So it
// does at most as many as its size, which also counts bytes, times the digits of that.
fn is_bounded(alloc: Global, text: &str) -> Result<bool, Fail> {
    let documents = load_with_limits(alloc, text, Limits::for_text(text))?;
    let mut nodes = 0_usize;
    let mut visited = 0_usize;
    for document in &documents {
        nodes = nodes.saturating_add(visit(alloc, document, 256, &mut visited)?);
    }
    Ok(visited <= nodes.saturating_mul(binary_digits(nodes)))
}

fn repeat(text: &mut String, piece: &str, times: u32) -> Result<(), Fail> {
    for _ in 0..times {
        text.push_str(piece)?;
    }
    Ok(())
}

// What it shows, and how many keys of one mapping there are, each of what is repeated so many times, a number, and what is
// repeated as often.
type Keys = (&'static str, u32, u32, &'static str, &'static str);

const KEYS: [Keys; 6] = [
    ("plain keys", 800, 1, "k", ""),
    ("keys that share a digest", 500, 1, "[", "]"),
    ("deep keys that begin alike", 40, 250, "[", "]"),
    ("deep mappings as keys", 20, 120, "{? ", "}"),
    (
        "deep keys with items that are alike",
        40,
        120,
        "[[a], ",
        "]",
    ),
    ("keys that end alike", 100, 100, "", ", a"),
];

fn keys(alloc: Global, row: &Keys) -> Result<String, Fail> {
    let (_, count, times, opening, closing) = row;
    let mut text = String::new(alloc);
    for i in 0..*count {
        // Neither rising nor falling.
        let number = i ^ 341;
        text.push_str("? [")?;
        repeat(&mut text, opening, *times)?;
        text.push_str(format!(in alloc; "{number}")?.as_str())?;
        repeat(&mut text, closing, *times)?;
        text.push_str("]\n: v\n")?;
    }
    Ok(text)
}

fn keys_hold(rt: &(impl Abort + AllocGlobal), rows: &[Keys]) -> Result<(), Fail> {
    let mut report = Report::new(rt.alloc());
    for row in rows {
        let text = keys(rt.alloc(), row)?;
        report.check(row.0, "bounded", is_bounded(rt.alloc(), text.as_str())?)?;
    }
    assert!(rt; report.is_empty(), "{report}");
    Ok(())
}

#[test]
fn keys_that_are_alike_are_visited_seldom(rt: HostRuntime) -> Result<(), Fail> {
    keys_hold(&rt, &KEYS)
}

// A large key stands beside a small one in a key, which stands beside a small one in a key, and so on.
fn large_in_large(alloc: Global) -> Result<String, Fail> {
    let mut text = String::new(alloc);
    repeat(&mut text, "{a, ? ", 240)?;
    text.push('[')?;
    repeat(&mut text, "x, ", 1000)?;
    text.push(']')?;
    repeat(&mut text, "}", 240)?;
    Ok(text)
}

// Two keys of one size stand in a key, two such keys in a key, and so on.
fn halves(alloc: Global) -> Result<String, Fail> {
    let mut text = String::new(alloc);
    for i in 1..2049_u32 {
        // A mapping begins for each digit 0 at the end of what came before, and ends for each one at the end of this.
        repeat(
            &mut text,
            "{? ",
            if i == 1 { 11 } else { (i - 1).trailing_zeros() },
        )?;
        text.push_str(format!(in alloc; "{i}")?.as_str())?;
        repeat(&mut text, "}", i.trailing_zeros())?;
        text.push_str(if i == 2048 { "\n" } else { ", ? " })?;
    }
    Ok(text)
}

// Seven large keys stand behind 127 small ones in each large key.
fn few_among_many(alloc: Global) -> Result<String, Fail> {
    let mut text = String::from_str(alloc, "x")?;
    for _ in 0..3 {
        text = among_many(alloc, text.as_str())?;
    }
    Ok(text)
}

fn among_many(alloc: Global, large: &str) -> Result<String, Fail> {
    let mut text = String::from_str(alloc, "{")?;
    for i in 0..127 {
        text.push_str(format!(in alloc; "s{i}, ")?.as_str())?;
    }
    for i in 0..7 {
        text.push_str(format!(in alloc; "? [{large}, {i}], ")?.as_str())?;
    }
    text.push('}')?;
    Ok(text)
}

// Each key holds a copy of one array.
fn copies(alloc: Global) -> Result<String, Fail> {
    let mut text = String::from_str(alloc, "- &a [")?;
    repeat(&mut text, "x, ", 500)?;
    text.push_str("]\n- {")?;
    for i in 0..60 {
        text.push_str(format!(in alloc; "? [*a, {i}], ")?.as_str())?;
    }
    text.push_str("}\n")?;
    Ok(text)
}

#[test]
fn keys_in_keys_are_visited_seldom(rt: HostRuntime) -> Result<(), Fail> {
    let alloc = rt.alloc();
    assert!(rt; is_bounded(alloc, large_in_large(alloc)?.as_str())?);
    assert!(rt; is_bounded(alloc, halves(alloc)?.as_str())?);
    Ok(())
}

#[test]
fn large_keys_among_many_are_visited_seldom(rt: HostRuntime) -> Result<(), Fail> {
    let alloc = rt.alloc();
    assert!(rt; is_bounded(alloc, few_among_many(alloc)?.as_str())?);
    assert!(rt; is_bounded(alloc, copies(alloc)?.as_str())?);
    Ok(())
}
