use super::port_of_text;
use std::alloc::Global;
use std::process::Abort;
use std::test::Fail;
use test_rows::Report;

// What it shows, a text, and what is said of it.
type Row = (&'static str, &'static str, &'static str);

const ROWS: [Row; 7] = [
    ("a port", "host: example.org\nport: 8080\n", "8080"),
    (
        "too large a number",
        "# settings\nhost: example.org\n\nport: 70000 # too large\n",
        "line 4, column 7: port must be from 1 to 65535",
    ),
    (
        "a string",
        "port: \"80\"\n",
        "line 1, column 7: port must be from 1 to 65535",
    ),
    (
        "an alias stands where it is written",
        "a: &web [80]\nport: *web\n",
        "line 2, column 7: port must be from 1 to 65535",
    ),
    ("no port", "host: example.org\n", "there is no port"),
    ("no document", "", "there is no port"),
    (
        "a text with a fault",
        "port: [1\n",
        "while parsing a flow sequence, expected ',' or ']' at byte 9 line 2 column 1",
    ),
];

fn said(alloc: Global, text: &str) -> Result<String, Fail> {
    Ok(match port_of_text(alloc, text) {
        Ok(port) => format!(in alloc; "{port}")?,
        Err(invalid) => format!(in alloc; "{invalid}")?,
    })
}

// Of each text is said what its row says. All rows that fail are told.
fn rows_hold(rt: &(impl Abort + AllocGlobal), rows: &[Row]) -> Result<(), Fail> {
    let mut report = Report::new(rt.alloc());
    for (name, text, want) in rows {
        let said = said(rt.alloc(), text)?;
        report.compare(name, "said", said.as_str(), want)?;
    }
    assert!(rt; report.is_empty(), "{report}");
    Ok(())
}

#[test]
fn ports_are_judged(rt: HostRuntime) -> Result<(), Fail> {
    rows_hold(&rt, &ROWS)
}
