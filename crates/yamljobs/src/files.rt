//! Large files.

use crate::maker::Maker;
use crate::words::{COMMANDS, FOREIGN, VALUES};
use std::alloc::AllocError;

/// What stands in a large file.
#[derive(Clone, Copy)]
pub enum Subject {
    /// Texts of a program in a language of Latin letters.
    Messages,
    /// The same in languages of other scripts.
    Translations,
    /// The calls of a service, deep in each other.
    Calls,
    /// Releases with their changes, as blocks of text.
    Changes,
    /// Machines with what is installed on them.
    Machines,
    /// Rules with long explanations and comments.
    Rules,
}

/// A file of about so many bytes.
pub fn put_file(file: &mut Maker, subject: Subject, bytes: usize) -> Result<(), AllocError> {
    file.put(match subject {
        Subject::Messages => "en:\n  messages:",
        Subject::Translations => "xx:\n  messages:",
        Subject::Calls => "openapi: 3.1.0\ninfo:\n  title: Service\npaths:",
        Subject::Changes => "---\nchanges:",
        Subject::Machines => "machines:",
        Subject::Rules => "# Rules.\n#\n# Each has a name.\nrules:",
    })?;
    for entry in 0..u64::MAX {
        if file.len() >= bytes {
            break;
        }
        put_entry(file, subject, entry)?;
    }
    file.put("\n")
}

fn put_entry(file: &mut Maker, subject: Subject, entry: u64) -> Result<(), AllocError> {
    match subject {
        Subject::Messages => put_message(file, entry),
        Subject::Translations => put_translation(file, entry),
        Subject::Calls => put_call(file, entry),
        Subject::Changes => put_release(file),
        Subject::Machines => put_machine(file),
        Subject::Rules => put_rule(file, entry),
    }
}

// A key that comes once.
fn put_key(file: &mut Maker, entry: u64) -> Result<(), AllocError> {
    file.name()?;
    file.put("_")?;
    file.name()?;
    file.put("_")?;
    file.put_number(entry)?;
    file.put(": ")
}

fn put_message(file: &mut Maker, entry: u64) -> Result<(), AllocError> {
    if entry % 500 == 499 {
        file.put("\n\n  section_")?;
        file.put_number(entry)?;
        file.put(":")?;
    }
    file.put("\n    ")?;
    put_key(file, entry)?;
    match file.below(6) {
        0 => {
            file.put("\"")?;
            file.phrase()?;
            file.put(": %{count} \\\"")?;
            file.name()?;
            file.put("\\\"\"")
        }
        1 => file.name(),
        _ => file.phrase(),
    }
}

fn put_translation(file: &mut Maker, entry: u64) -> Result<(), AllocError> {
    file.put("\n    ")?;
    put_key(file, entry)?;
    match file.below(4) {
        0 => {
            file.put("\"")?;
            file.pick(FOREIGN)?;
            file.put(": %{count}\"")
        }
        _ => file.pick(FOREIGN),
    }
}

fn put_call(file: &mut Maker, entry: u64) -> Result<(), AllocError> {
    file.put("\n  /")?;
    file.name()?;
    file.put("/")?;
    file.put_number(entry)?;
    file.put("/{id}:\n    get:\n      summary: ")?;
    file.phrase()?;
    file.put("\n      operationId: ")?;
    file.key()?;
    file.put("\n      parameters:\n        - name: ")?;
    file.name()?;
    file.put("\n          in: query\n          required: ")?;
    file.pick(&["true", "false"])?;
    file.put("\n          schema:\n            type: string\n            maxLength: ")?;
    file.number(1000)?;
    file.put("\n      responses:\n        '200':\n          description: ")?;
    file.phrase()?;
    file.put(
        "\n          content:\n            application/json:\n              schema:\n                $ref: '#/components/schemas/",
    )?;
    file.name()?;
    file.put("'\n        '404':\n          description: Not found\n      tags: [")?;
    file.name()?;
    file.put("]")
}

fn put_release(file: &mut Maker) -> Result<(), AllocError> {
    file.put("\n  - version: ")?;
    file.number(30)?;
    file.put(".")?;
    file.number(30)?;
    file.put("\n    date: 2026-01-0")?;
    file.number(10)?;
    file.put("\n    notes: |\n")?;
    let lines = file.below(8).wrapping_add(2);
    for _ in 0..lines {
        file.put("      ")?;
        file.phrase()?;
        file.put(", ")?;
        file.pick(COMMANDS)?;
        file.put("\n")?;
    }
    file.put("    summary: >-\n      ")?;
    file.phrase()?;
    file.put("\n      ")?;
    file.phrase()?;
    file.put("\n    urgency: low")
}

fn put_machine(file: &mut Maker) -> Result<(), AllocError> {
    file.put("\n- id: ")?;
    file.key()?;
    file.put("\n  address: 10.0.")?;
    file.number(256)?;
    file.put(".")?;
    file.number(256)?;
    file.put("\n  labels:\n    role: ")?;
    file.name()?;
    file.put("\n    stage: ")?;
    file.pick(VALUES)?;
    file.put("\n  packages:")?;
    let count = file.below(6).wrapping_add(1);
    for _ in 0..count {
        file.put("\n    - name: ")?;
        file.name()?;
        file.put("\n      version: ")?;
        file.number(100)?;
        file.put(".")?;
        file.number(100)?;
        file.put(".1")?;
    }
    file.put("\n  ports:\n    - ")?;
    file.number(65_536)?;
    file.put("\n    - ")?;
    file.number(65_536)
}

fn put_rule(file: &mut Maker, entry: u64) -> Result<(), AllocError> {
    file.put("\n\n  # ")?;
    file.phrase()?;
    file.put("\n  # ")?;
    file.phrase()?;
    file.put("\n  - id: rule-")?;
    file.put_number(entry)?;
    file.put("   # ")?;
    file.name()?;
    file.put("\n    text: ")?;
    file.phrase()?;
    file.put("\n      ")?;
    file.phrase()?;
    file.put("\n      ")?;
    file.phrase()?;
    file.put("\n    level: ")?;
    file.pick(VALUES)?;
    file.put("\n    applies:\n    - ")?;
    file.name()?;
    file.put("\n    - ")?;
    file.name()
}
