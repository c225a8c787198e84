use std::alloc::Global;
use std::process::Abort;
use std::test::Fail;
use test_rows::Report;
use yaml_loader::marked::{Marked, MarkedDocuments, load_marked};
use yaml_rust2::scanner::Marker;

// A step to a part of a node.
enum Step {
    Item(usize),
    Value(&'static str),
    Key(&'static str),
}

use Step::{Item, Key, Value};

// What it shows, a text, the number of a document, the steps to a node in it, where the node begins, and where its tree begins.
type Row = (
    &'static str,
    &'static str,
    usize,
    &'static [Step],
    &'static str,
);

const ROWS: [Row; 37] = [
    (
        "a block sequence begins at its first dash",
        "- a\n",
        0,
        &[],
        "1:0 1:0",
    ),
    ("an item", "- a\n", 0, &[Item(0)], "1:2 1:2"),
    (
        "a sequence in an item",
        "- - a\n  - b\n",
        0,
        &[Item(0)],
        "1:2 1:2",
    ),
    (
        "an item of a sequence in an item",
        "- - a\n  - b\n",
        0,
        &[Item(0), Item(1)],
        "2:4 2:4",
    ),
    (
        "a block mapping begins at its first `?`",
        "? a\n: b\n",
        0,
        &[],
        "1:0 1:0",
    ),
    ("a key after `?`", "? a\n: b\n", 0, &[Key("a")], "1:2 1:2"),
    (
        "a value on a line of its own",
        "? a\n: b\n",
        0,
        &[Value("a")],
        "2:2 2:2",
    ),
    (
        "a block mapping begins at its first `:`",
        "a: b\n",
        0,
        &[],
        "1:1 1:1",
    ),
    ("a key", "a: b\n", 0, &[Key("a")], "1:0 1:0"),
    ("a value", "a: b\n", 0, &[Value("a")], "1:3 1:3"),
    (
        "empty lines, and blanks before `:`",
        "\n\n  key  : v\n",
        0,
        &[],
        "3:7 3:7",
    ),
    (
        "a key after empty lines",
        "\n\n  key  : v\n",
        0,
        &[Key("key")],
        "3:2 3:2",
    ),
    (
        "a sequence at the column of its key begins at its first item",
        "k:\n- x\n",
        0,
        &[Value("k")],
        "2:2 2:2",
    ),
    (
        "a sequence further in begins at its dash",
        "k:\n  - x\n",
        0,
        &[Value("k")],
        "2:2 2:2",
    ),
    (
        "an item of a value",
        "k:\n  - x\n",
        0,
        &[Value("k"), Item(0)],
        "2:4 2:4",
    ),
    (
        "a scalar begins after its anchor and tag",
        "&a !t x\n",
        0,
        &[],
        "1:6 1:6",
    ),
    (
        "a flow mapping begins after its anchor",
        "&m {a: 1}\n",
        0,
        &[],
        "1:3 1:3",
    ),
    (
        "a value in flow",
        "&m {a: 1}\n",
        0,
        &[Value("a")],
        "1:7 1:7",
    ),
    (
        "a sequence below its anchor",
        "&a\n- x\n",
        0,
        &[],
        "2:0 2:0",
    ),
    (
        "a mapping below its anchor",
        "k: &a\n  b: c\n",
        0,
        &[Value("k")],
        "2:3 2:3",
    ),
    (
        "a key begins after its anchor",
        "&a k: v\n",
        0,
        &[Key("k")],
        "1:3 1:3",
    ),
    (
        "a value that is missing in flow",
        "{a: , b}\n",
        0,
        &[Value("a")],
        "1:2 1:2",
    ),
    (
        "a key without value",
        "{a: , b}\n",
        0,
        &[Key("b")],
        "1:6 1:6",
    ),
    ("its value", "{a: , b}\n", 0, &[Value("b")], "1:7 1:7"),
    (
        "a value that is missing in a block",
        "a:\nb: &c\n",
        0,
        &[Value("a")],
        "2:0 2:0",
    ),
    ("a document without content", "--- # c\n", 0, &[], "2:0 2:0"),
    (
        "a literal block",
        "- |\n  x\n- \"y\n  z\"\n",
        0,
        &[Item(0)],
        "2:2 2:2",
    ),
    (
        "a quoted scalar after it",
        "- |\n  x\n- \"y\n  z\"\n",
        0,
        &[Item(1)],
        "3:2 3:2",
    ),
    (
        "characters that are not ASCII count once",
        "é: {\"ü\": x}\n",
        0,
        &[Value("é"), Value("ü")],
        "1:9 1:9",
    ),
    ("the second document", "[a]\n---\n[b]\n", 1, &[], "3:0 3:0"),
    (
        "an item of the second document",
        "[a]\n---\n[b]\n",
        1,
        &[Item(0)],
        "3:1 3:1",
    ),
    (
        "an alias for a scalar",
        "a: &s b\nc: *s\n",
        0,
        &[Value("c")],
        "2:3 1:6",
    ),
    (
        "an array with an anchor",
        "- &a [x]\n- *a\n",
        0,
        &[Item(0)],
        "1:5 1:5",
    ),
    (
        "an alias for the array",
        "- &a [x]\n- *a\n",
        0,
        &[Item(1)],
        "2:2 1:5",
    ),
    (
        "an item of the alias",
        "- &a [x]\n- *a\n",
        0,
        &[Item(1), Item(0)],
        "1:6 1:6",
    ),
    (
        "a part of an alias that has an anchor",
        "- &a {b: &c [1]}\n- *a\n- *c\n",
        0,
        &[Item(1), Value("b")],
        "1:12 1:12",
    ),
    (
        "an alias for that part",
        "- &a {b: &c [1]}\n- *a\n- *c\n",
        0,
        &[Item(2)],
        "3:2 1:12",
    ),
];

fn shown(alloc: Global, position: Marker) -> Result<String, Fail> {
    Ok(format!(in alloc; "{}:{}", position.line(), position.col())?)
}

fn part<'a>(node: Marked<'a>, step: &Step) -> Option<Marked<'a>> {
    match step {
        Item(place) => node.get_index(*place),
        Value(key) => node.get_key(key),
        Key(key) => Some(node.get_pair(key)?.0),
    }
}

fn node<'a>(documents: &'a MarkedDocuments, document: usize, steps: &[Step]) -> Option<Marked<'a>> {
    let mut node = documents.get(document)?;
    for step in steps {
        node = part(node, step)?;
    }
    Some(node)
}

// Where a node and its tree begin.
fn told(alloc: Global, text: &str, document: usize, steps: &[Step]) -> Result<String, Fail> {
    let documents = load_marked(alloc, text)?;
    let node = node(&documents, document, steps).ok_or("no such node")?;
    let own = shown(alloc, node.marker())?;
    let tree = shown(alloc, node.tree_marker())?;
    Ok(format!(in alloc; "{own} {tree}")?)
}

// Each node begins where its row says. All rows that fail are told.
fn rows_hold(rt: &(impl Abort + AllocGlobal), rows: &[Row]) -> Result<(), Fail> {
    let mut report = Report::new(rt.alloc());
    for (name, text, document, steps, want) in rows {
        let found = told(rt.alloc(), text, *document, steps)?;
        report.compare(name, "begins", found.as_str(), want)?;
    }
    assert!(rt; report.is_empty(), "{report}");
    Ok(())
}

#[test]
fn nodes_have_the_positions_of_their_events(rt: HostRuntime) -> Result<(), Fail> {
    rows_hold(&rt, &ROWS)
}

#[test]
fn parts_come_in_order(rt: HostRuntime) -> Result<(), Fail> {
    let alloc = rt.alloc();
    let documents = load_marked(alloc, "{a: [x, y], b: [z]}\n")?;
    let root = documents.first().ok_or("no document")?;
    let mut line = String::new(alloc);
    for (key, items) in root.pairs().ok_or("no pairs")? {
        line.push_str(key.as_str().ok_or("no text")?)?;
        for item in items.items().ok_or("no items")? {
            line.push_str(item.as_str().ok_or("no text")?)?;
            line.push_str(shown(alloc, item.marker())?.as_str())?;
        }
    }
    assert_eq!(rt; line.as_str(), "ax1:5y1:8bz1:16");
    assert_eq!(rt; documents.len(), 1);
    let plain = documents.into_documents();
    assert_eq!(rt; plain.len(), 1);
    Ok(())
}
