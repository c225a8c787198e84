use super::settle_and_load;
use overlay::overlay;
use std::alloc::Global;
use std::test::Fail;
use test_rows::Report;
use yaml_rust2::{Yaml, YamlLoader};

// The one document of a text.
fn tree(alloc: Global, text: &str) -> Result<Yaml, Fail> {
    let mut documents = YamlLoader::load_from_str(alloc, text)?;
    Ok(documents.pop().unwrap_or(Yaml::BadValue))
}

// What it shows, left, right, and the right laid over the left.
const ROWS: [(&str, &str, &str, &str); 6] = [
    (
        "hashes are laid over each other, pair by pair",
        "{a: 1, b: {c: 2}}",
        "{b: {d: 3}, e: 4}",
        "{a: 1, b: {c: 2, d: 3}, e: 4}",
    ),
    ("null over a hash", "{a: 1}", "~", "~"),
    ("an array over an array", "[1]", "[2]", "[2]"),
    (
        "the left's order stays",
        "{a: 1, b: 2}",
        "{b: 3, a: ~}",
        "{a: ~, b: 3}",
    ),
    (
        "a key that is an array",
        "{[1]: x}",
        "{[1]: y, 2: z}",
        "{[1]: y, 2: z}",
    ),
    ("a hash over an integer", "1", "{a: {b: 2}}", "{a: {b: 2}}"),
];

#[test]
fn the_right_is_laid_over_the_left(rt: HostRuntime) -> Result<(), Fail> {
    let alloc = rt.alloc();
    let mut report = Report::new(alloc);
    for (name, left, right, want) in ROWS {
        let left = tree(alloc, left)?;
        let right = tree(alloc, right)?;
        let laid = overlay(alloc, &left, &right)?;
        report.check(name, "another tree", laid == tree(alloc, want)?)?;
    }
    assert!(rt; report.is_empty(), "{report}");
    Ok(())
}

#[test]
fn settings_come_back(rt: HostRuntime) -> Result<(), Fail> {
    let alloc = rt.alloc();
    let defaults = tree(alloc, "{host: localhost, port: 80, log: {level: info}}")?;
    let file = tree(alloc, "{port: 8000, log: {file: x.log}}")?;
    let asked = tree(alloc, "{log: {level: debug}}")?;
    let back = settle_and_load(alloc, &defaults, &file, &asked)?;
    assert_eq!(rt; back.len(), 1);
    let want = "{host: localhost, port: 8000, log: {level: debug, file: x.log}}";
    assert!(rt; back[0] == tree(alloc, want)?);
    Ok(())
}
