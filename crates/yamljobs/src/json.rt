//! JSON texts.

use crate::maker::Maker;
use std::alloc::AllocError;

/// What stands in a JSON text.
#[derive(Clone, Copy)]
pub enum Dump {
    /// What a service answers, indented.
    Records,
    /// Packages with the versions of what they need, indented.
    Lock,
    /// Numbers, all on a line for each record.
    Numbers,
    /// Messages whose characters outside ASCII are escaped.
    Escapes,
}

/// A text of about so many bytes.
pub fn put_dump(file: &mut Maker, dump: Dump, bytes: usize) -> Result<(), AllocError> {
    file.put("{\n  \"version\": 3,\n  \"entries\": [")?;
    for entry in 0..u64::MAX {
        if file.len() >= bytes {
            break;
        }
        if entry > 0 {
            file.put(",")?;
        }
        put_entry(file, dump, entry)?;
    }
    file.put("\n  ]\n}\n")
}

fn put_entry(file: &mut Maker, dump: Dump, entry: u64) -> Result<(), AllocError> {
    match dump {
        Dump::Records => put_record(file, entry),
        Dump::Lock => put_package(file, entry),
        Dump::Numbers => put_numbers(file),
        Dump::Escapes => put_escapes(file, entry),
    }
}

fn put_record(file: &mut Maker, entry: u64) -> Result<(), AllocError> {
    file.put("\n    {\n      \"id\": ")?;
    file.put_number(entry)?;
    file.put(",\n      \"name\": \"")?;
    file.key()?;
    file.put("\",\n      \"description\": \"")?;
    file.phrase()?;
    file.put("\",\n      \"active\": ")?;
    file.pick(&["true", "false", "null"])?;
    file.put(",\n      \"owner\": {\n        \"login\": \"")?;
    file.name()?;
    file.put("\",\n        \"url\": \"https:\\/\\/api.example.org\\/users\\/")?;
    file.number(100_000)?;
    file.put("\"\n      },\n      \"topics\": [\n        \"")?;
    file.name()?;
    file.put("\",\n        \"")?;
    file.name()?;
    file.put("\"\n      ],\n      \"score\": ")?;
    file.number(100)?;
    file.put(".")?;
    file.number(1000)?;
    file.put("\n    }")
}

fn put_package(file: &mut Maker, entry: u64) -> Result<(), AllocError> {
    file.put("\n    {\n      \"path\": \"node_modules/")?;
    file.name()?;
    file.put("-")?;
    file.put_number(entry)?;
    file.put("\",\n      \"version\": \"")?;
    file.number(30)?;
    file.put(".0.1\",\n      \"integrity\": \"sha512-")?;
    for _ in 0..8 {
        file.number(10_000_000_000)?;
    }
    file.put("==\",\n      \"dependencies\": {\n        \"a-")?;
    file.key()?;
    file.put("\": \"^1.0.0\",\n        \"b-")?;
    file.key()?;
    file.put("\": \"~2.3.1\"\n      }\n    }")
}

fn put_numbers(file: &mut Maker) -> Result<(), AllocError> {
    file.put("\n    [")?;
    for _ in 0..12 {
        file.number(1_000_000)?;
        file.put(", ")?;
        file.number(100)?;
        file.put(".5, ")?;
    }
    file.put("[], {}, -1]")
}

fn put_escapes(file: &mut Maker, entry: u64) -> Result<(), AllocError> {
    file.put("\n    {\"id\": ")?;
    file.put_number(entry)?;
    file.put(", \"text\": \"\\u0424\\u0430\\u0439\\u043b \\u043d\\u0435 ")?;
    file.name()?;
    file.put(" \\u043d\\u0430\\u0439\\u0434\\u0435\\u043d\\n\\t\\u2014 ")?;
    file.phrase()?;
    file.put("\\u00e9\"}")
}
