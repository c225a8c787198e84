//! Small files: settings, front matter, descriptions of tests.

use crate::maker::Maker;
use crate::words::{COMMANDS, PHRASES, VALUES};
use std::alloc::AllocError;

// How many parts a file has at most.
const PARTS: u64 = 12;

/// A file of 0.3 to 3 KB. One in sixteen has a fault on its last line.
pub fn put_settings(file: &mut Maker) -> Result<(), AllocError> {
    file.put("# ")?;
    file.phrase()?;
    file.put("\nname: ")?;
    file.key()?;
    file.put("\nversion: 1.")?;
    file.number(40)?;
    file.put(".0\ndescription: ")?;
    file.phrase()?;
    let parts = file.below(PARTS).wrapping_add(1);
    for part in 0..parts {
        put_part(file, part)?;
    }
    match file.below(16) {
        0 => file.put("\nlast: \"open"),
        _ => file.put("\n"),
    }
}

fn put_part(file: &mut Maker, part: u64) -> Result<(), AllocError> {
    match file.below(8) {
        0 | 1 => put_server(file, part),
        2 | 3 => put_list(file, part),
        4 => put_steps(file, part),
        5 => put_flow(file, part),
        6 => put_comments(file),
        _ => put_pairs(file, part),
    }
}

// The key of a part, which comes once.
fn put_key(file: &mut Maker, part: u64) -> Result<(), AllocError> {
    file.put("\n")?;
    file.name()?;
    file.put("_")?;
    file.put_number(part)?;
    file.put(":")
}

fn put_server(file: &mut Maker, part: u64) -> Result<(), AllocError> {
    file.put("\n")?;
    put_key(file, part)?;
    file.put("\n  host: ")?;
    file.key()?;
    file.put(".example.org\n  port: ")?;
    file.number(65_536)?;
    file.put("\n  secure: ")?;
    file.pick(&["true", "false"])?;
    file.put("\n  # ")?;
    file.phrase()?;
    file.put("\n  paths:\n    - /etc/ssl/")?;
    file.key()?;
    file.put(".pem\n    - \"/srv/")?;
    file.name()?;
    file.put(" files\"\n  retry:\n    limit: ")?;
    file.number(10)?;
    file.put("\n    pause: ")?;
    file.pick(VALUES)
}

fn put_list(file: &mut Maker, part: u64) -> Result<(), AllocError> {
    put_key(file, part)?;
    let count = file.below(5).wrapping_add(1);
    for _ in 0..count {
        file.put("\n  - ")?;
        match file.below(10) {
            0 => put_quoted(file, "\"")?,
            1 => put_quoted(file, "'")?,
            _ => file.phrase()?,
        }
    }
    Ok(())
}

fn put_quoted(file: &mut Maker, quote: &str) -> Result<(), AllocError> {
    file.put(quote)?;
    file.name()?;
    file.put(": {")?;
    file.key()?;
    file.put("} # no comment")?;
    file.put(quote)
}

fn put_steps(file: &mut Maker, part: u64) -> Result<(), AllocError> {
    put_key(file, part)?;
    let count = file.below(3).wrapping_add(1);
    for _ in 0..count {
        file.put("\n  - name: ")?;
        file.phrase()?;
        file.put("\n    run: |\n      ")?;
        file.pick(COMMANDS)?;
        file.put("\n      ")?;
        file.pick(COMMANDS)?;
        file.put("\n    with:\n      level: ")?;
        file.pick(VALUES)?;
    }
    Ok(())
}

fn put_flow(file: &mut Maker, part: u64) -> Result<(), AllocError> {
    put_key(file, part)?;
    file.put(" {limit: ")?;
    file.number(100)?;
    file.put(", tags: [")?;
    file.name()?;
    file.put(", \"")?;
    file.name()?;
    file.put("\"]}   # ")?;
    file.phrase()
}

fn put_comments(file: &mut Maker) -> Result<(), AllocError> {
    file.put("\n")?;
    for _ in 0..3 {
        file.put("\n# ")?;
        file.phrase()?;
    }
    Ok(())
}

fn put_pairs(file: &mut Maker, part: u64) -> Result<(), AllocError> {
    put_key(file, part)?;
    let count = file.below(12).wrapping_add(1);
    for pair in 0..count {
        file.put("\n  ")?;
        file.name()?;
        file.put("_")?;
        file.put_number(pair)?;
        file.put(": ")?;
        match file.below(4) {
            0 => file.pick(PHRASES)?,
            1 => file.name()?,
            _ => file.pick(VALUES)?,
        }
    }
    Ok(())
}
