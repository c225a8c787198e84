use super::load_marked_from_stranger;
use std::alloc::Global;
use std::test::Fail;
use test_rows::Report;
use yaml_loader::limits::{Limits, load_marked_with_limits, load_with_limits};

#[test]
fn settings_of_a_stranger_have_positions(rt: HostRuntime) -> Result<(), Fail> {
    let text = "host: a\nports: [80, none]\n---\nlast\n";
    let documents = load_marked_from_stranger(rt.alloc(), text, 3)?;
    assert_eq!(rt; documents.len(), 2);
    let settings = documents.first().ok_or("no document")?;
    let ports = settings.get_key("ports").ok_or("no ports")?;
    let port = ports.get_index(1).ok_or("no second port")?;
    assert_eq!(rt; port.as_str(), Some("none"));
    assert_eq!(rt; (port.marker().line(), port.marker().col()), (2, 12));
    Ok(())
}

// What a load with positions comes to.
fn marked_outcome(alloc: Global, text: &str, limits: Limits) -> Result<String, Fail> {
    match load_marked_with_limits(alloc, text, limits) {
        Ok(documents) => told(alloc, documents.len()),
        Err(error) => Ok(format!(in alloc; "{error}")?),
    }
}

// What a load without positions comes to.
fn plain_outcome(alloc: Global, text: &str, limits: Limits) -> Result<String, Fail> {
    match load_with_limits(alloc, text, limits) {
        Ok(documents) => told(alloc, documents.len()),
        Err(error) => Ok(format!(in alloc; "{error}")?),
    }
}

fn told(alloc: Global, documents: usize) -> Result<String, Fail> {
    Ok(format!(in alloc; "{documents} documents")?)
}

// What it shows, a text, the levels and the size that it may have, and what comes of it.
type Row = (&'static str, &'static str, usize, usize, &'static str);

const ROWS: [Row; 7] = [
    ("no document", "", 0, 0, "0 documents"),
    ("just deep enough", "- [a]\n", 3, 4, "1 documents"),
    (
        "one level too deep",
        "- [a]\n",
        2,
        4,
        "too many levels at line 1 column 4",
    ),
    (
        "one byte too large",
        "- [a]\n",
        3,
        3,
        "too large at line 1 column 4",
    ),
    ("an alias", "- &a x\n- *a\n", 2, 7, "1 documents"),
    (
        "an alias too much",
        "- &a x\n- *a\n",
        2,
        6,
        "too large at line 2 column 3",
    ),
    (
        "all documents count together",
        "a\n--- b\n",
        1,
        3,
        "too large at line 2 column 5",
    ),
];

#[test]
fn loads_with_positions_are_within_limits(rt: HostRuntime) -> Result<(), Fail> {
    let alloc = rt.alloc();
    let mut report = Report::new(alloc);
    for (name, text, levels, size, want) in &ROWS {
        let limits = Limits {
            levels: *levels,
            size: *size,
        };
        let found = marked_outcome(alloc, text, limits)?;
        report.compare(name, "within the limits", found.as_str(), want)?;
        let plain = plain_outcome(alloc, text, limits)?;
        report.compare(name, "without positions", found.as_str(), plain.as_str())?;
    }
    assert!(rt; report.is_empty(), "{report}");
    Ok(())
}

const FAULTS: [&str; 4] = ["{a: 1, a: 2}", "[a\n--- b", "'a", "*a"];

#[test]
fn loads_with_positions_have_the_same_faults(rt: HostRuntime) -> Result<(), Fail> {
    let alloc = rt.alloc();
    let mut report = Report::new(alloc);
    for text in &FAULTS {
        let limits = Limits::for_text(text);
        let found = marked_outcome(alloc, text, limits)?;
        let plain = plain_outcome(alloc, text, limits)?;
        report.compare(text, "without positions", found.as_str(), plain.as_str())?;
        assert!(rt; plain.as_str() != "1 documents");
    }
    assert!(rt; report.is_empty(), "{report}");
    Ok(())
}
