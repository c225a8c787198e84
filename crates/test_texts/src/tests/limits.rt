//! Texts that are long, deep or both.
use super::dumping::{COMPACT, dumped, loads_back_in_all, tree};
use super::reading::loaded;
use std::alloc::Global;
use std::process::Abort;
use std::test::Fail;
use test_rows::Report;
use yaml_rust2::YamlLoader;
use yaml_rust2::yaml::{Array, Yaml};

/// So many times a beginning, a middle, and as many times an end.
pub(crate) fn nested(
    alloc: Global,
    levels: usize,
    begin: &str,
    middle: &str,
    end: &str,
) -> Result<String, Fail> {
    let mut text = String::new(alloc);
    for _ in 0..levels {
        text.push_str(begin)?;
    }
    text.push_str(middle)?;
    for _ in 0..levels {
        text.push_str(end)?;
    }
    Ok(text)
}

fn is_loaded(alloc: Global, text: &str) -> bool {
    match YamlLoader::load_from_str(alloc, text) {
        Ok(documents) => documents.len() == 1,
        Err(_) => false,
    }
}

// Arrays in arrays, this number in all, the innermost empty.
fn arrays(alloc: Global, levels: usize) -> Result<Yaml, Fail> {
    let mut node = Array::new(alloc);
    for _ in 1..levels {
        let mut outer = Array::new(alloc);
        outer.push(Yaml::Array(node))?;
        node = outer;
    }
    Ok(Yaml::Array(node))
}

// What it shows, levels, a beginning, a middle, an end, and the fault.
type Levels = (
    &'static str,
    usize,
    &'static str,
    &'static str,
    &'static str,
    &'static str,
);

const TOO_DEEP: [Levels; 4] = [
    (
        "one level too many",
        256,
        "[",
        "",
        "]",
        "recursion limit exceeded at byte 255 line 1 column 256",
    ),
    (
        "one level too many, of both kinds",
        254,
        "[",
        "{\"a\":[]}",
        "]",
        "recursion limit exceeded at byte 259 line 1 column 260",
    ),
    (
        "very many sequences",
        10000,
        "[",
        "",
        "]",
        "recursion limit exceeded at byte 255 line 1 column 256",
    ),
    (
        "very many mappings",
        10000,
        "{a:",
        "",
        "}",
        "recursion limit exceeded at byte 765 line 1 column 766",
    ),
];

// Each text that is nested so is refused with its row's fault. All rows that fail are told.
fn levels_hold(rt: &(impl Abort + AllocGlobal), rows: &[Levels]) -> Result<(), Fail> {
    let mut report = Report::new(rt.alloc());
    for (name, levels, begin, middle, end, want) in rows {
        let text = nested(rt.alloc(), *levels, begin, middle, end)?;
        let found = loaded(rt.alloc(), text.as_str())?;
        report.compare(name, "loaded", found.as_str(), want)?;
    }
    assert!(rt; report.is_empty(), "{report}");
    Ok(())
}

#[test]
fn deeper_flow_collections_are_refused(rt: HostRuntime) -> Result<(), Fail> {
    levels_hold(&rt, &TOO_DEEP)
}

#[test]
fn flow_collections_have_255_levels(rt: HostRuntime) -> Result<(), Fail> {
    let deepest = nested(rt.alloc(), 255, "[", "", "]")?;
    assert!(rt; tree(rt.alloc(), deepest.as_str())? == arrays(rt.alloc(), 255)?);
    let deep = nested(rt.alloc(), 254, "[", "{\"a\":1}", "]")?;
    assert!(rt; is_loaded(rt.alloc(), deep.as_str()));
    Ok(())
}

#[test]
fn deep_trees_are_dropped(rt: HostRuntime) -> Result<(), Fail> {
    let dashes = nested(rt.alloc(), 100000, "- ", "", "")?;
    assert!(rt; tree(rt.alloc(), dashes.as_str())?.is_array());
    Ok(())
}

/// A text with this number of letters in it.
pub(crate) fn with_letters(
    alloc: Global,
    begin: &str,
    letters: usize,
    end: &str,
) -> Result<String, Fail> {
    let mut text = String::from_str(alloc, begin)?;
    for _ in 0..letters {
        text.push('a')?;
    }
    text.push_str(end)?;
    Ok(text)
}

// What it shows, a beginning, how many letters, and an end.
type LongKey = (&'static str, &'static str, usize, &'static str);

const LONG_KEYS: [LongKey; 4] = [
    ("a plain key", "", 1024, ": 1"),
    ("a key in double quotes, which count", "\"", 1022, "\": 1"),
    (
        "a key in single quotes, on the second line",
        "---\n'",
        1022,
        "': 1",
    ),
    ("a key in flow", "{", 5000, ": 1}"),
];

// The same, and the fault.
type LongerKey = (
    &'static str,
    &'static str,
    usize,
    &'static str,
    &'static str,
);

const LONGER_KEYS: [LongerKey; 4] = [
    (
        "a plain key",
        "",
        1025,
        ": 1",
        "mapping values are not allowed in this context at byte 1025 line 1 column 1026",
    ),
    (
        "a key in double quotes",
        "\"",
        1023,
        "\": 1",
        "mapping values are not allowed in this context at byte 1025 line 1 column 1026",
    ),
    (
        "a key in single quotes, on the second line",
        "---\n'",
        1023,
        "': 1",
        "mapping values are not allowed in this context at byte 1029 line 2 column 1026",
    ),
    (
        "a plain key of a mapping that has one",
        "a: 1\n",
        1025,
        ": 2",
        "simple key expect ':' at byte 1030 line 2 column 1026",
    ),
];

// The text with each row's key loads. All rows that fail are told.
fn long_keys_hold(rt: &(impl Abort + AllocGlobal), rows: &[LongKey]) -> Result<(), Fail> {
    let mut report = Report::new(rt.alloc());
    for (name, begin, letters, end) in rows {
        let text = with_letters(rt.alloc(), begin, *letters, end)?;
        report.check(name, "loaded", is_loaded(rt.alloc(), text.as_str()))?;
    }
    assert!(rt; report.is_empty(), "{report}");
    Ok(())
}

#[test]
fn keys_have_1024_characters(rt: HostRuntime) -> Result<(), Fail> {
    long_keys_hold(&rt, &LONG_KEYS)
}

// The text with each row's key is refused with the row's fault. All rows that fail are told.
fn longer_keys_hold(rt: &(impl Abort + AllocGlobal), rows: &[LongerKey]) -> Result<(), Fail> {
    let mut report = Report::new(rt.alloc());
    for (name, begin, letters, end, want) in rows {
        let text = with_letters(rt.alloc(), begin, *letters, end)?;
        let found = loaded(rt.alloc(), text.as_str())?;
        report.compare(name, "loaded", found.as_str(), want)?;
    }
    assert!(rt; report.is_empty(), "{report}");
    Ok(())
}

#[test]
fn longer_keys_are_refused(rt: HostRuntime) -> Result<(), Fail> {
    longer_keys_hold(&rt, &LONGER_KEYS)
}

/// The tree of a hash with the value 1, whose key has this number of letters.
pub(crate) fn of_long_key(alloc: Global, letters: usize) -> Result<Yaml, Fail> {
    let text = with_letters(alloc, "{", letters, ": 1}")?;
    tree(alloc, text.as_str())
}

#[test]
fn long_keys_are_dumped(rt: HostRuntime) -> Result<(), Fail> {
    let long = of_long_key(rt.alloc(), 1024)?;
    assert!(rt; long.is_hash());
    assert!(rt; loads_back_in_all(rt.alloc(), &long)?);
    Ok(())
}

#[test]
fn dumps_of_longer_keys_are_refused(rt: HostRuntime) -> Result<(), Fail> {
    let longer = of_long_key(rt.alloc(), 1025)?;
    let text = dumped(rt.alloc(), &longer, COMPACT)?;
    assert_eq!(rt;
        loaded(rt.alloc(), text.as_str())?.as_str(),
        "mapping values are not allowed in this context at byte 1029 line 2 column 1026"
    );
    Ok(())
}

// Two arrays of two, each an array of two, and so on, down to texts.
fn doubled(alloc: Global, levels: usize) -> Result<Yaml, Fail> {
    let mut node = Yaml::String(String::from_str(alloc, "x")?);
    for _ in 0..levels {
        let mut both = Array::new(alloc);
        both.push(node.clone(alloc)?)?;
        both.push(node)?;
        node = Yaml::Array(both);
    }
    Ok(node)
}

// Ten arrays: the first of two texts, and each further one of two aliases of the one before.
fn doublings(alloc: Global) -> Result<String, Fail> {
    let mut text = String::from_str(alloc, "- &a1 [x, x]\n")?;
    for i in 2..11u32 {
        let before = i.saturating_sub(1);
        text.push_str(format!(in alloc; "- &a{i} [*a{before}, *a{before}]\n")?.as_str())?;
    }
    Ok(text)
}

// Whether each item is doubled once more than the one before.
fn are_doubled(alloc: Global, items: &[Yaml]) -> Result<bool, Fail> {
    let mut levels = 0_usize;
    for item in items {
        levels = levels.saturating_add(1);
        if *item != doubled(alloc, levels)? {
            return Ok(false);
        }
    }
    Ok(true)
}

#[test]
fn aliases_are_copies(rt: HostRuntime) -> Result<(), Fail> {
    let tree = tree(rt.alloc(), doublings(rt.alloc())?.as_str())?;
    let items = tree.as_vec().ok_or("no array")?;
    assert_eq!(rt; items.len(), 10);
    assert!(rt; are_doubled(rt.alloc(), items)?);
    Ok(())
}

#[test]
fn an_iterator_is_left_alone_after_its_end(rt: HostRuntime) -> Result<(), Fail> {
    let letters = "a-b"
        .chars()
        .map_while(|c: char| if c == '-' { None } else { Some(c) });
    let documents = YamlLoader::load_from_iter(rt.alloc(), letters).map_err(|_| "a fault")?;
    let is_a = match documents.as_slice() {
        [document] => document.as_str() == Some("a"),
        _ => false,
    };
    assert!(rt; is_a);
    Ok(())
}
