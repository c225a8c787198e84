use super::load_server;
use std::alloc::Global;
use std::process::Abort;
use std::test::Fail;
use test_rows::Report;

// What it shows, a text, and the server that it has or what is said of it.
type Row = (&'static str, &'static str, &'static str);

const ROWS: [Row; 9] = [
    (
        "all is said",
        "server: {host: example.org, port: 443, tls: true}\n",
        "example.org:443, TLS true",
    ),
    (
        "a key is missing",
        "server:\n  host: example.org\n  tls: true\n",
        "example.org:8080, TLS true",
    ),
    (
        "the section is empty",
        "server:\nlog: all\n",
        "localhost:8080, TLS false",
    ),
    (
        "there is no section",
        "log: all\n",
        "localhost:8080, TLS false",
    ),
    (
        "a string in place of the section",
        "log: all\nserver: oops\n",
        "line 2, column 9: $[\"server\"]: a string, where a hash is wanted\nserver: oops\n        ^",
    ),
    (
        "a string in place of the port",
        "server:\n  port: none\n",
        "line 2, column 9: $[\"server\"][\"port\"]: a string, where an integer is wanted\n  port: none\n        ^",
    ),
    (
        "null in place of the port",
        "server: {port: ~}\n",
        "line 1, column 16: $[\"server\"][\"port\"]: null, where an integer is wanted\nserver: {port: ~}\n               ^",
    ),
    (
        "an array in place of the section",
        "server: [80]\n",
        "line 1, column 9: $[\"server\"]: an array, where a hash is wanted\nserver: [80]\n        ^",
    ),
    ("no document", "", "the file is empty"),
];

// What is said of a text.
fn said(alloc: Global, text: &str) -> Result<String, Fail> {
    match load_server(alloc, text) {
        Ok(server) => {
            let host = server.host.as_str();
            Ok(format!(in alloc; "{host}:{}, TLS {}", server.port, server.tls)?)
        }
        Err(refused) => Ok(format!(in alloc; "{refused}")?),
    }
}

// Of each text is said what its row says. All rows that fail are told.
fn rows_hold(rt: &(impl Abort + AllocGlobal), rows: &[Row]) -> Result<(), Fail> {
    let mut report = Report::new(rt.alloc());
    for (name, text, want) in rows {
        let found = said(rt.alloc(), text)?;
        report.compare(name, "loaded", found.as_str(), want)?;
    }
    assert!(rt; report.is_empty(), "{report}");
    Ok(())
}

#[test]
fn a_default_stands_for_what_is_missing_alone(rt: HostRuntime) -> Result<(), Fail> {
    rows_hold(&rt, &ROWS)
}
