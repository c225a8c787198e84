//! Writers that refuse.
use std::alloc::Global;
use std::fmt;
use std::process::Abort;
use std::test::Fail;
use test_rows::Report;
use yaml_emitter::{FmtWriter, Writer, YamlEmitter};
use yaml_loader::YamlLoader;
use yaml_tree::Yaml;

/// Takes a number of calls, and refuses the next one.
#[derive(Drop)]
pub(crate) struct Refusing {
    pub(crate) text: String,
    pub(crate) left: u32,
}

impl Refusing {
    fn take(&mut self, text: &str) -> fmt::Result {
        match self.left.checked_sub(1) {
            Some(left) => self.left = left,
            None => return Err(fmt::Error),
        }
        self.text.push_str(text).map_err(|_| fmt::Error)
    }
}

impl Writer for Refusing {
    ghost put_gives = { λ before characters after. Unit {0} };

    ghost put_leaves = { λ before characters after. Unit {0} };

    ghost calls_give = { λ before characters after. Unit {0} };

    ghost calls_leave = { λ before characters after. Unit {0} };

    ghost wrote = { λ before characters after is. tt };

    ghost stopped = { λ before characters after is. tt };

    fn put(&mut self, text: &str) -> fmt::Result {
        self.take(text)
    }
}

impl fmt::Write for Refusing {
    fn write_str(&mut self, text: &str) -> fmt::Result {
        self.take(text)
    }
}

/// How a tree is written.
#[derive(Clone, Copy)]
pub(crate) struct Settings {
    pub(crate) compact: bool,
    pub(crate) multiline: bool,
}

/// Whether a dump is written.
pub(crate) fn is_written<W: Writer>(writer: &mut W, tree: &Yaml, settings: Settings) -> bool {
    let mut emitter = YamlEmitter::new(writer);
    emitter.compact(settings.compact);
    emitter.multiline_strings(settings.multiline);
    emitter.dump(tree).is_ok()
}

// What a writer that refuses after a number of calls has then, and whether the dump is written.
fn written(alloc: Global, tree: &Yaml, settings: Settings, left: u32) -> (String, bool) {
    let text = String::new(alloc);
    let mut writer = Refusing { text, left };
    let is_whole = is_written(&mut writer, tree, settings);
    (writer.text, is_whole)
}

// The same of a `fmt::Write`.
fn formatted(alloc: Global, tree: &Yaml, settings: Settings, left: u32) -> (String, bool) {
    let text = String::new(alloc);
    let mut writer = FmtWriter::new(Refusing { text, left });
    let is_whole = is_written(&mut writer, tree, settings);
    (writer.into_inner().text, is_whole)
}

// How many calls a dump makes: each of them is refused in turn, and what was written then is a beginning of the text, which
// a `String` takes whole. Or what is wrong.
fn refused(alloc: Global, tree: &Yaml, settings: Settings) -> Result<u32, &'static str> {
    let mut whole = String::new(alloc);
    if !is_written(&mut whole, tree, settings) {
        return Err("no memory");
    }
    for left in 0..u32::MAX {
        let (text, is_whole) = written(alloc, tree, settings, left);
        let (other, is_other_whole) = formatted(alloc, tree, settings, left);
        let is_same = text == other && is_whole == is_other_whole;
        let is_beginning = whole.as_str().starts_with(text.as_str());
        if !is_same || !is_beginning || is_whole && text != whole {
            return Err("another text");
        }
        if is_whole {
            return Ok(left);
        }
    }
    Err("no end")
}

const SETTINGS: [Settings; 4] = [
    Settings {
        compact: true,
        multiline: false,
    },
    Settings {
        compact: true,
        multiline: true,
    },
    Settings {
        compact: false,
        multiline: false,
    },
    Settings {
        compact: false,
        multiline: true,
    },
];

/// What it shows, the text of a tree, and how many calls its texts take at least.
pub(crate) type Row = (&'static str, &'static str, u32);

const TEXTS: [Row; 5] = [
    (
        "a key that is a mapping",
        "? key:\n    - 1\n    - 2\n    - 3\n: - 4\n  - 5\n  - 6",
        10,
    ),
    (
        "every kind of node",
        "- \"a\\nb\\u0001\"\n- {x: [~, true, -5, 1.5], y: {}, z: []}\n",
        10,
    ),
    ("a folded scalar", ">\n a\n b\n\n c\n  d\n e\n", 2),
    (
        "a mapping and its alias",
        "a1: &DEFAULT\n    b1: 4\n    b2: d\na2: *DEFAULT\n",
        10,
    ),
    (
        "collections in collections, at any columns",
        "---\n# top\n\n   ? - 1\n     - 2\n# mid\n   :       - x\n           - |\n                 p\n\n                 q\n   k:\n# c\n     z: {}\n",
        10,
    ),
];

// Dumps by all settings.
struct Dumps;

impl TextKind for Dumps {
    fn fewest(&self, alloc: Global, tree: &Yaml) -> Result<u32, &'static str> {
        let mut fewest = u32::MAX;
        for settings in &SETTINGS {
            fewest = fewest.min(refused(alloc, tree, *settings)?);
        }
        Ok(fewest)
    }
}

/// The only document of a text.
pub(crate) fn only_document(alloc: Global, text: &str) -> Result<Yaml, &'static str> {
    let Ok(mut documents) = YamlLoader::load_from_str(alloc, text) else {
        return Err("a fault");
    };
    let count = documents.len();
    match documents.pop() {
        Some(tree) if count == 1 => Ok(tree),
        _ => Err("no document"),
    }
}

// What is wrong with texts that take so many calls, and must take so many at least, if anything.
fn wrong(calls: Result<u32, &'static str>, least: u32) -> &'static str {
    match calls {
        Ok(calls) if calls >= least => "nothing",
        Ok(_) => "too few calls",
        Err(why) => why,
    }
}

/// A kind of texts that trees are written as.
pub(crate) trait TextKind {
    /// The fewest calls that the texts of a tree take: each of them is refused in turn. Or what is wrong.
    fn fewest(&self, alloc: Global, tree: &Yaml) -> Result<u32, &'static str>;
}

/// A writer that refuses a call of a row's texts is answered. All rows that fail are told.
pub(crate) fn rows_hold<K: TextKind>(
    rt: &(impl Abort + AllocGlobal),
    rows: &[Row],
    kind: &K,
) -> Result<(), Fail> {
    let mut report = Report::new(rt.alloc());
    for (name, text, least) in rows {
        let calls = match only_document(rt.alloc(), text) {
            Ok(tree) => kind.fewest(rt.alloc(), &tree),
            Err(why) => Err(why),
        };
        report.compare(name, "wrong", wrong(calls, *least), "nothing")?;
    }
    assert!(rt; report.is_empty(), "{report}");
    Ok(())
}

#[test]
fn a_writer_that_refuses_is_answered(rt: HostRuntime) -> Result<(), Fail> {
    rows_hold(&rt, &TEXTS, &Dumps)
}
