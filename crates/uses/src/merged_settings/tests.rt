use super::{NoSettings, load_settings, port};
use overlay::merge_keys::merge;
use std::alloc::Global;
use std::process::Abort;
use std::test::Fail;
use test_rows::Report;
use yaml_rust2::{Yaml, YamlLoader};

// The one document of a text.
fn tree(alloc: Global, text: &str) -> Result<Yaml, Fail> {
    let mut documents = YamlLoader::load_from_str(alloc, text)?;
    Ok(documents.pop().unwrap_or(Yaml::BadValue))
}

// What it shows, a document, and what it is after its merges, or what is said of the first node that cannot be merged.
type Row = (&'static str, &'static str, &'static str);

const ROWS: [Row; 7] = [
    (
        "a pair of its own comes before a merged one",
        "defaults: &d {host: a, port: 80}\nserver: {<<: *d, port: 8080}\n",
        "{defaults: {host: a, port: 80}, server: {port: 8080, host: a}}",
    ),
    (
        "the first of two merged mappings counts",
        "- &a {x: 1, y: 2}\n- &b {x: 0, z: 3}\n- {<<: [*a, *b], y: 9}\n",
        "[{x: 1, y: 2}, {x: 0, z: 3}, {y: 9, x: 1, z: 3}]",
    ),
    (
        "a merged mapping is merged first",
        "{<<: {<<: {a: 1}, b: 2}, c: 3}",
        "{c: 3, b: 2, a: 1}",
    ),
    (
        "values are not merged",
        "{<<: {a: {b: 1}}, a: {c: 2}}",
        "{a: {c: 2}}",
    ),
    (
        "a merge key in arrays, and an empty list",
        "[{<<: {a: 1}}, [{<<: []}]]",
        "[{a: 1}, [{}]]",
    ),
    (
        "a merge key in a key stays",
        "{{<<: {a: 1}}: 2}",
        "{{<<: {a: 1}}: 2}",
    ),
    ("no merge key", "[1, ~, x, {a: [b]}]", "[1, ~, x, {a: [b]}]"),
];

// Whether a document is this one after its merges.
fn gives(alloc: Global, text: &str, want: &str) -> Result<bool, Fail> {
    let merged = merge(alloc, &tree(alloc, text)?)?;
    Ok(merged == tree(alloc, want)?)
}

// Each document gives the tree of its row. All rows that fail are told.
fn rows_hold(rt: &(impl Abort + AllocGlobal), rows: &[Row]) -> Result<(), Fail> {
    let mut report = Report::new(rt.alloc());
    for (name, text, want) in rows {
        let holds = gives(rt.alloc(), text, want)?;
        report.check(name, "another tree", holds)?;
    }
    assert!(rt; report.is_empty(), "{report}");
    Ok(())
}

#[test]
fn merge_keys_are_carried_out(rt: HostRuntime) -> Result<(), Fail> {
    rows_hold(&rt, &ROWS)
}

const FAULTS: [Row; 5] = [
    (
        "an integer",
        "{<<: 5}",
        "$[\"<<\"]: only a mapping can be merged",
    ),
    (
        "a string in a list",
        "a: [b, {<<: [{}, x]}]",
        "$[\"a\"][1][\"<<\"][1]: only a mapping can be merged",
    ),
    (
        "null in a merged mapping, before an integer",
        "{<<: [{<<: ~}, 1]}",
        "$[\"<<\"][0][\"<<\"]: only a mapping can be merged",
    ),
    (
        "a string below a key that is an integer",
        "{a: 1, 7: {<<: b}}",
        "$[1][\"<<\"]: only a mapping can be merged",
    ),
    (
        "a list in a list",
        "{<<: [[{}]]}",
        "$[\"<<\"][0]: only a mapping can be merged",
    ),
];

// What is said of a document that cannot be merged.
fn refusal(alloc: Global, text: &str) -> Result<String, Fail> {
    match merge(alloc, &tree(alloc, text)?) {
        Ok(_) => Ok(String::from_str(alloc, "merged")?),
        Err(error) => Ok(format!(in alloc; "{error}")?),
    }
}

// Of each document is said what its row says. All rows that fail are told.
fn faults_hold(rt: &(impl Abort + AllocGlobal), rows: &[Row]) -> Result<(), Fail> {
    let mut report = Report::new(rt.alloc());
    for (name, text, want) in rows {
        let found = refusal(rt.alloc(), text)?;
        report.compare(name, "merged", found.as_str(), want)?;
    }
    assert!(rt; report.is_empty(), "{report}");
    Ok(())
}

#[test]
fn nodes_that_cannot_be_merged_are_named(rt: HostRuntime) -> Result<(), Fail> {
    faults_hold(&rt, &FAULTS)
}

#[test]
fn settings_have_their_defaults(rt: HostRuntime) -> Result<(), Fail> {
    let alloc = rt.alloc();
    let settings = load_settings(
        alloc,
        "defaults: &d {port: 80}\nserver: {<<: *d, host: a}\n",
    )?;
    match port(&settings) {
        Ok(port) => assert_eq!(rt; port, 80),
        Err(_) => return Err(Fail::from("no port")),
    }
    let wrong = load_settings(
        alloc,
        "defaults: &d {port: none}\nserver: {<<: *d, host: a}\n",
    )?;
    let Err(error) = port(&wrong) else {
        return Err(Fail::from("a port"));
    };
    let want = "$[\"server\"][\"port\"]: a string, where an integer is wanted";
    assert_eq!(rt; format!(in alloc; "{error}")?.as_str(), want);
    let Err(NoSettings::Empty) = load_settings(alloc, "") else {
        return Err(Fail::from("settings"));
    };
    Ok(())
}
