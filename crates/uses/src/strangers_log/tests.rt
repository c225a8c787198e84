use super::has_other_than_mappings;
use std::alloc::Global;
use std::test::Fail;
use test_rows::Report;
use yaml_loader::limits::{LimitedDocuments, Limits, LimitsError};

#[test]
fn other_documents_are_found_within_limits(rt: HostRuntime) -> Result<(), Fail> {
    let alloc = rt.alloc();
    let limits = Limits {
        levels: 2,
        size: 30,
    };
    assert!(rt; !has_other_than_mappings(alloc, "", limits)?);
    assert!(rt; !has_other_than_mappings(alloc, "level: info\n---\n{level: error}\n", limits)?);
    assert!(rt; has_other_than_mappings(alloc, "level: info\n---\n- level\n--- {}\n", limits)?);
    Ok(())
}

// What the documents come to, each with its kind, up to the error; and then `None` comes.
fn outcome(alloc: Global, text: &str, limits: Limits) -> Result<String, Fail> {
    let mut told = String::new(alloc);
    let mut documents = LimitedDocuments::from_iter(alloc, text.chars(), limits);
    for _ in 0..9 {
        match documents.next() {
            Some(Ok(document)) => {
                if document.is_hash() {
                    told.push_str("mapping, ")?;
                } else {
                    told.push_str("other, ")?;
                }
            }
            Some(Err(error)) => {
                let error = format!(in alloc; "{error}, ")?;
                told.push_str(error.as_str())?;
            }
            None => told.push_str("-")?,
        }
    }
    Ok(told)
}

// What it shows, a text, the levels and the size that each document may have, and what comes.
type Row = (&'static str, &'static str, usize, usize, &'static str);

const ROWS: [Row; 8] = [
    ("no document", "", 0, 0, "---------"),
    (
        "each document counts on its own",
        "a\n--- b\n--- c\n",
        1,
        2,
        "other, other, other, ------",
    ),
    (
        "the second is too large",
        "a\n--- bc\n--- d\n",
        1,
        2,
        "other, too large at line 2 column 5, -------",
    ),
    (
        "the second is too deep",
        "a: 1\n---\na: [1]\n---\nb: 2\n",
        2,
        99,
        "mapping, too many levels at line 3 column 5, -------",
    ),
    (
        "an alias counts as its node",
        "[&a x, *a]\n",
        2,
        7,
        "other, --------",
    ),
    (
        "an alias is too much",
        "a\n--- [&a x, *a]\n",
        2,
        6,
        "other, too large at line 2 column 12, -------",
    ),
    (
        "anchors of the document before do not count",
        "&a x\n--- &b y\n",
        1,
        4,
        "other, other, -------",
    ),
    (
        "a fault of the text",
        "a\n--- *b\n",
        1,
        9,
        "other, while parsing node, found unknown anchor at byte 6 line 2 column 5, -------",
    ),
];

#[test]
fn documents_come_one_by_one_within_limits(rt: HostRuntime) -> Result<(), Fail> {
    let alloc = rt.alloc();
    let mut report = Report::new(alloc);
    for (name, text, levels, size, want) in &ROWS {
        let limits = Limits {
            levels: *levels,
            size: *size,
        };
        let found = outcome(alloc, text, limits)?;
        report.compare(name, "what comes", found.as_str(), want)?;
    }
    assert!(rt; report.is_empty(), "{report}");
    Ok(())
}

// With room for 3,000 tokens, of which 4,000 would wait in the second document.
#[test]
fn tokens_that_wait_in_a_document_are_too_many(rt: HostRuntime) -> Result<(), Fail> {
    let alloc = rt.alloc();
    let mut text = String::from_str(alloc, "a\n--- [")?;
    for _ in 0..2000 {
        text.push_str(":,")?;
    }
    text.push_str("]\n")?;
    let limits = Limits {
        levels: 9,
        size: 2000,
    };
    let mut documents = LimitedDocuments::new(alloc, text.as_str(), limits);
    assert!(rt; documents.next().is_some_and(|first| first.is_ok()));
    match documents.next() {
        Some(Err(error)) => match &error {
            LimitsError::Size(position) => assert_eq!(rt; position.line(), 2),
            _ => return Err(Fail::from("another error")),
        },
        _ => return Err(Fail::from("no error")),
    }
    assert!(rt; documents.next().is_none());
    Ok(())
}
