//! Pairs, which keep the order of insertion.
use crate::made::{put, word};
use std::alloc::Global;
use std::process::Abort;
use std::test::Fail;
use test_rows::Report;
use yaml_tree::{Hash, Steps, Yaml};

// The functions below have no contract, so that many calls make no long proof.

fn insert_words(alloc: Global, pairs: &mut Hash, key: &str, value: &str) -> Result<String, Fail> {
    let old = put(pairs, word(alloc, key)?, word(alloc, value)?)?;
    Ok(format!(in alloc; "{old:?}")?)
}

fn get_words(alloc: Global, pairs: &Hash, key: &str) -> Result<String, Fail> {
    let key = word(alloc, key)?;
    Ok(format!(in alloc; "{:?}", pairs.get(&key))?)
}

fn remove_words(alloc: Global, pairs: &mut Hash, key: &str) -> Result<String, Fail> {
    let old = pairs.remove(&word(alloc, key)?);
    Ok(format!(in alloc; "{old:?}")?)
}

fn back_words(alloc: Global, pairs: &Hash) -> Result<String, Fail> {
    Ok(format!(in alloc; "{:?}", pairs.back())?)
}

fn show_words(alloc: Global, pairs: &Hash) -> Result<String, Fail> {
    Ok(format!(in alloc; "{} {} {pairs:?}", pairs.len(), pairs.is_empty())?)
}

fn copy_words(alloc: Global, pairs: &Hash) -> Result<String, Fail> {
    let is_equal = pairs.clone(alloc)? == *pairs;
    Ok(format!(in alloc; "{is_equal}")?)
}

fn none_words(alloc: Global, pairs: &Hash) -> Result<String, Fail> {
    let is_equal = Hash::new(alloc) == *pairs;
    Ok(format!(in alloc; "{is_equal}")?)
}

fn place_words(alloc: Global, pairs: &Hash, key: &str) -> Result<String, Fail> {
    let key = word(alloc, key)?;
    let mut steps = Steps::new();
    Ok(format!(in alloc; "{:?}", pairs.place(&key, &mut steps))?)
}

fn lent_words(alloc: Global, pairs: &Hash) -> Result<String, Fail> {
    let mut words = String::new(alloc);
    for pair in pairs {
        words.push_str(format!(in alloc; "{pair:?} ")?.as_str())?;
    }
    Ok(words)
}

fn owned_words(alloc: Global, pairs: Hash) -> Result<String, Fail> {
    let mut words = String::new(alloc);
    for pair in pairs {
        words.push_str(format!(in alloc; "{pair:?} ")?.as_str())?;
    }
    Ok(words)
}

// The pairs, lent and then by value.
fn all_words(alloc: Global, pairs: &Hash) -> Result<String, Fail> {
    let mut words = lent_words(alloc, pairs)?;
    words.push_str(owned_words(alloc, pairs.clone(alloc)?)?.as_str())?;
    Ok(words)
}

// A call of a hash.
#[derive(Clone, Copy)]
enum Call {
    // `insert` of these two texts.
    Put(&'static str, &'static str),
    Get(&'static str),
    Remove(&'static str),
    Place(&'static str),
    Back,
    // The pairs, lent and then by value.
    All,
    // Its length, whether it is empty, and its pairs.
    Show,
    // Whether a copy is equal.
    Clone,
    // Whether a new hash is equal.
    IsNone,
}

// What a call returns.
fn answer(alloc: Global, pairs: &mut Hash, call: Call) -> Result<String, Fail> {
    match call {
        Call::Put(key, value) => insert_words(alloc, pairs, key, value),
        Call::Get(key) => get_words(alloc, pairs, key),
        Call::Remove(key) => remove_words(alloc, pairs, key),
        Call::Place(key) => place_words(alloc, pairs, key),
        Call::Back => back_words(alloc, pairs),
        Call::All => all_words(alloc, pairs),
        Call::Show => show_words(alloc, pairs),
        Call::Clone => copy_words(alloc, pairs),
        Call::IsNone => none_words(alloc, pairs),
    }
}

// What it shows, a call, and what it returns: all are calls of one hash, one after the other.
type Row = (&'static str, Call, &'static str);

const CALLS: [Row; 21] = [
    ("nothing in a new hash", Call::Show, "0 true {}"),
    ("no last pair", Call::Back, "None"),
    ("no place", Call::Place("a"), "None"),
    ("nothing to go over", Call::All, ""),
    ("a new hash is a new hash", Call::IsNone, "true"),
    ("a first key", Call::Put("a", "1"), "None"),
    ("a second key", Call::Put("b", "2"), "None"),
    (
        "a key again gives its old value",
        Call::Put("a", "3"),
        "Some(String(\"1\"))",
    ),
    (
        "a key again stands last",
        Call::Show,
        "2 false {String(\"b\"): String(\"2\"), String(\"a\"): String(\"3\")}",
    ),
    ("the place of the first", Call::Place("b"), "Some(0)"),
    ("the place of the last", Call::Place("a"), "Some(1)"),
    ("no place of another key", Call::Place("c"), "None"),
    (
        "all pairs, lent and then owned",
        Call::All,
        "(String(\"b\"), String(\"2\")) (String(\"a\"), String(\"3\")) (String(\"b\"), String(\"2\")) (String(\"a\"), String(\"3\")) ",
    ),
    ("a copy is equal", Call::Clone, "true"),
    ("no longer a new hash", Call::IsNone, "false"),
    ("the new value", Call::Get("a"), "Some(String(\"3\"))"),
    (
        "a key is taken out with its value",
        Call::Remove("b"),
        "Some(String(\"2\"))",
    ),
    ("it is gone", Call::Get("b"), "None"),
    ("it cannot be taken out again", Call::Remove("b"), "None"),
    (
        "the last pair",
        Call::Back,
        "Some((String(\"a\"), String(\"3\")))",
    ),
    (
        "what is left",
        Call::Show,
        "1 false {String(\"a\"): String(\"3\")}",
    ),
];

// A new hash answers each call as its row says. All rows that fail are told.
fn calls_hold(rt: &(impl Abort + AllocGlobal), rows: &[Row]) -> Result<(), Fail> {
    let mut report = Report::new(rt.alloc());
    let mut pairs = Hash::new(rt.alloc());
    for (name, call, want) in rows {
        let found = answer(rt.alloc(), &mut pairs, *call)?;
        report.compare(name, "called", found.as_str(), want)?;
    }
    assert!(rt; report.is_empty(), "{report}");
    Ok(())
}

#[test]
fn pairs_keep_the_order_of_insertion(rt: HostRuntime) -> Result<(), Fail> {
    calls_hold(&rt, &CALLS)
}

// Adds, moves to the end and takes out, in a hash and in a plain list.
fn turn(hash: &mut Hash, list: &mut Vec<(i64, i64)>, key: i64, value: i64) -> Result<(), Fail> {
    list.retain(|pair| pair.0 != key);
    if value % 5 == 3 {
        let _ = hash.remove(&Yaml::Integer(key));
        return Ok(());
    }
    list.push((key, value))?;
    let _ = put(hash, Yaml::Integer(key), Yaml::Integer(value))?;
    Ok(())
}

// Whether a hash has just these pairs, in this order, and finds each by its key.
fn is_alike(hash: &Hash, list: &[(i64, i64)]) -> bool {
    for ((key, value), pair) in hash.iter().zip(list.iter()) {
        let is_found = match hash.get(key) {
            Some(found) => *found == *value,
            None => false,
        };
        if !is_found || *key != Yaml::Integer(pair.0) || *value != Yaml::Integer(pair.1) {
            return false;
        }
    }
    hash.len() == list.len()
}

// Few keys in the first turns, and then so many that places stand in several blocks.
fn turns(alloc: Global, hash: &mut Hash) -> Result<Vec<(i64, i64)>, Fail> {
    let mut list = Vec::new(alloc);
    for i in 0..4000_i64 {
        let count = if i < 300 { 101 } else { 1999 };
        turn(hash, &mut list, i.wrapping_mul(37) % count, i)?;
    }
    Ok(list)
}

#[test]
fn a_hash_does_as_a_plain_list(rt: HostRuntime) -> Result<(), Fail> {
    let mut hash = Hash::new(rt.alloc());
    let list = turns(rt.alloc(), &mut hash)?;
    assert!(rt; is_alike(&hash, list.as_slice()));
    assert!(rt; hash.clone(rt.alloc())? == hash);
    Ok(())
}

// What keys have in common.
#[derive(Clone, Copy)]
enum Alike {
    // Texts that begin with the same bytes.
    Beginning,
    // Integers, of which each but one is the negative of another: an index has one mark for both.
    Absolute,
    // Aliases: an index has one mark for all of them.
    All,
}

fn numbered(alloc: Global, alike: Alike, number: i64) -> Result<Yaml, Fail> {
    match alike {
        Alike::Beginning => Ok(Yaml::String(format!(in alloc; "beginning {number}")?)),
        Alike::Absolute => Ok(Yaml::Integer(number.wrapping_sub(999))),
        Alike::All => Ok(Yaml::Alias(number.unsigned_abs() as usize)),
    }
}

// The key that was put in at this turn.
fn turned(alloc: Global, alike: Alike, turn: i64) -> Result<Yaml, Fail> {
    numbered(alloc, alike, turn.wrapping_mul(37) % 1999)
}

// A hash of 1999 keys, each with the turn at which it was put in.
fn filled(alloc: Global, alike: Alike) -> Result<Hash, Fail> {
    let mut hash = Hash::new(alloc);
    for i in 0..1999_i64 {
        let _ = put(&mut hash, turned(alloc, alike, i)?, Yaml::Integer(i))?;
    }
    Ok(hash)
}

// The turn that a hash has for a key, or -1.
fn turn_of(hash: &Hash, key: &Yaml) -> i64 {
    match hash.get(key) {
        Some(Yaml::Integer(turn)) => *turn,
        _ => -1,
    }
}

// Whether each key is found with its turn.
fn are_found(alloc: Global, hash: &Hash, alike: Alike) -> Result<bool, Fail> {
    for i in 0..1999_i64 {
        if turn_of(hash, &turned(alloc, alike, i)?) != i {
            return Ok(false);
        }
    }
    Ok(true)
}

// What taking out a key gives, the turn that is found for it then, and the length.
fn removed_words(alloc: Global, hash: &mut Hash, key: &Yaml) -> Result<String, Fail> {
    let gone = hash.remove(key);
    let found = turn_of(hash, key);
    Ok(format!(in alloc; "{gone:?} {found} {}", hash.len())?)
}

// Whether each of 1999 such keys is found, and what taking one out gives.
fn alike_words(alloc: Global, alike: Alike) -> Result<String, Fail> {
    let mut hash = filled(alloc, alike)?;
    let is_whole = are_found(alloc, &hash, alike)?;
    let key = numbered(alloc, alike, 37)?;
    let words = removed_words(alloc, &mut hash, &key)?;
    Ok(format!(in alloc; "{is_whole} {words}")?)
}

// What keys are called, and what they have in common.
type Kind = (&'static str, Alike);

const KINDS: [Kind; 3] = [
    ("texts with the same beginning", Alike::Beginning),
    ("integers and their negatives", Alike::Absolute),
    ("aliases", Alike::All),
];

// The keys of each kind are found, and taken out. All kinds that fail are told.
fn kinds_hold(rt: &(impl Abort + AllocGlobal), rows: &[Kind]) -> Result<(), Fail> {
    let mut report = Report::new(rt.alloc());
    for (name, alike) in rows {
        let found = alike_words(rt.alloc(), *alike)?;
        report.compare(
            name,
            "put in",
            found.as_str(),
            "true Some(Integer(1)) -1 1998",
        )?;
    }
    assert!(rt; report.is_empty(), "{report}");
    Ok(())
}

#[test]
fn keys_that_are_alike_are_found(rt: HostRuntime) -> Result<(), Fail> {
    kinds_hold(&rt, &KINDS)
}
