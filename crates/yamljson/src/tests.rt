use crate::run::YamlJson;
use std::alloc::Global;
use std::io::{ErrorKind, Read, Write};
use std::test::Fail;
use std::{env, fs, io};
use test_rows::Report;
use yaml_programs::FileProgram;

// A writer that fails, and a reader.
#[derive(Clone, Copy)]
struct Failing(ErrorKind);

impl Write for Failing {
    fn write(&mut self, _bytes: &[u8]) -> io::Result<usize> {
        Err(io::Error::from(self.0))
    }

    fn flush(&mut self) -> io::Result<()> {
        Err(io::Error::from(self.0))
    }
}

impl Read for Failing {
    fn read(&mut self, _bytes: &mut [u8]) -> io::Result<usize> {
        Err(io::Error::from(self.0))
    }
}

// All that is printed for a file that holds these bytes, and the status. `options` come before the file's path.
fn told(rt: &HostRuntime, options: &[&str], bytes: &[u8]) -> Result<String, Fail> {
    let alloc = rt.alloc();
    let path = env::temp_dir(rt)?.join(alloc, "yamljson-test.yaml")?;
    fs::write(rt, path.as_path(), bytes)?;
    let name = path.as_path().to_str().unwrap_or("");
    let mut args = words(alloc, options)?;
    args.push(String::from_str(alloc, name)?)?;
    let text = ran(rt, args.as_slice(), b"")?;
    Ok(text.replace(alloc, name, "FILE")?)
}

fn words(alloc: Global, list: &[&str]) -> Result<Vec<String>, Fail> {
    let mut all = Vec::new(alloc);
    for word in list {
        all.push(String::from_str(alloc, word)?)?;
    }
    Ok(all)
}

// All that is printed, and the status, for arguments and the bytes of the standard input.
fn ran(rt: &HostRuntime, args: &[String], input: &[u8]) -> Result<String, Fail> {
    let alloc = rt.alloc();
    let mut input = input;
    let mut out = Vec::new(alloc);
    let mut err = Vec::new(alloc);
    let status = YamlJson::run(rt, alloc, args, &mut input, &mut out, &mut err);
    let printed = String::from_utf8_lossy(alloc, out.as_slice())?;
    let said = String::from_utf8_lossy(alloc, err.as_slice())?;
    Ok(format!(in alloc; "{printed}{said}{status}")?)
}

// What it shows, the options, what the file holds, and all that is printed.
type Row = (
    &'static str,
    &'static [&'static str],
    &'static [u8],
    &'static str,
);

const ROWS: [Row; 17] = [
    (
        "scalars and a block scalar",
        &[],
        b"a: [1, 2.50, ~, yes]\nb: |\n  x\n",
        "{\"a\":[1,2.50,null,\"yes\"],\"b\":\"x\\n\"}\n0",
    ),
    (
        "a line for each document",
        &[],
        b"--- 1\n--- {}\n--- \"\\x01\"",
        "1\n{}\n\"\\u0001\"\n0",
    ),
    (
        "indented",
        &["--indent"],
        b"a: [1]\nb: {}",
        "{\n  \"a\": [\n    1\n  ],\n  \"b\": {}\n}\n0",
    ),
    ("an empty file", &[], b"", "0"),
    (
        "a byte order mark is no character of the text",
        &[],
        b"\xEF\xBB\xBFa: 1",
        "{\"a\":1}\n0",
    ),
    (
        "UTF-16, little endian",
        &[],
        b"\xFF\xFEa\x00:\x00 \x001\x00",
        "{\"a\":1}\n0",
    ),
    (
        "UTF-16 without a byte order mark",
        &[],
        b"\x00a\x00:\x00 \x001",
        "{\"a\":1}\n0",
    ),
    (
        "UTF-16, big endian",
        &[],
        b"\xFE\xFF\x00a\x00:\x00 \x00\xE9",
        "{\"a\":\"\u{E9}\"}\n0",
    ),
    (
        "a real that JSON lacks",
        &[],
        b"--- 1\n--- [a, .inf]",
        "FILE:2:9: document 2: $[1]: the number cannot be written in JSON\n1",
    ),
    (
        "a key that is no string",
        &[],
        b"a: {x: y,\n  1: x}",
        "FILE:2:3: document 1: $[\"a\"]: a key is no string: 1\n1",
    ),
    (
        "the second key is no string",
        &[],
        b"---\n- x\n---\na: 1\n\ntrue: 2\nb: 3\n2: 4",
        "FILE:6:1: document 2: $: a key is no string: true\n1",
    ),
    (
        "a key that is null",
        &[],
        b"- b: 1\n  ~: x",
        "FILE:2:3: document 1: $[0]: a key is no string: null\n1",
    ),
    (
        "a key that is a collection",
        &[],
        b"[1]: x",
        "FILE:1:1: document 1: $: a key is no string: a sequence\n1",
    ),
    (
        "a text with a fault",
        &[],
        b"[",
        "FILE:2:1: while parsing a node, did not find expected node content\n1",
    ),
    (
        "bytes that are no text",
        &[],
        b"a\xFF",
        "yamljson: FILE: Invalid character sequence at 1: [255]\n1",
    ),
    (
        "too many levels",
        &["--max-levels", "2"],
        b"- - - a",
        "FILE:1:5: too many levels\n1",
    ),
    (
        "too large",
        &["--max-size", "3"],
        b"[a, b]",
        "FILE:1:5: too large\n1",
    ),
];

// The rows of which something else is printed.
fn failed(rt: &HostRuntime, rows: &[Row]) -> Result<Report, Fail> {
    let mut report = Report::new(rt.alloc());
    for (name, options, bytes, want) in rows {
        let found = told(rt, options, bytes)?;
        report.compare(name, "printed", found.as_str(), want)?;
    }
    Ok(report)
}

#[test]
fn files_are_printed(rt: HostRuntime) -> Result<(), Fail> {
    let report = failed(&rt, &ROWS)?;
    assert!(rt; report.is_empty(), "{report}");
    Ok(())
}

// What it shows, the arguments, what the standard input has, and all that is printed.
type Call = (
    &'static str,
    &'static [&'static str],
    &'static [u8],
    &'static str,
);

const CALLS: [Call; 13] = [
    (
        "without a file the standard input is read",
        &[],
        b"a: 1",
        "{\"a\":1}\n0",
    ),
    (
        "an option before a file",
        &["--indent", "-"],
        b"[1]",
        "[\n  1\n]\n0",
    ),
    (
        "an option without a file",
        &["--indent"],
        b"[1]",
        "[\n  1\n]\n0",
    ),
    (
        "an option before two dashes",
        &["--indent", "--", "-"],
        b"[1]",
        "[\n  1\n]\n0",
    ),
    (
        "an option behind a file",
        &["-", "--indent"],
        b"[1]",
        "[\n  1\n]\n0",
    ),
    (
        "each file is tried",
        &["no/such/file", "-"],
        b"1",
        "1\nyamljson: cannot read no/such/file: there is no such file\n1",
    ),
    ("a dash is the standard input", &["-"], b"1", "1\n0"),
    (
        "a file behind one that is printed",
        &["-", "no/such/file"],
        b"1",
        "1\nyamljson: cannot read no/such/file: there is no such file\n1",
    ),
    (
        "a directory",
        &["."],
        b"",
        "yamljson: cannot read .: it is a directory\n1",
    ),
    (
        "a value behind a sign",
        &["--max-levels=2", "-"],
        b"- - - a",
        "-:1:5: too many levels\n1",
    ),
    (
        "no limits but those given",
        &["--no-limits", "--max-size", "3"],
        b"[a, b]",
        "-:1:5: too large\n1",
    ),
    (
        "behind two dashes there are files",
        &["--", "--indent"],
        b"",
        "yamljson: cannot read --indent: there is no such file\n1",
    ),
    ("the version", &["--version"], b"", "yamljson 0.1.0\n0"),
];

// The arguments that are not taken, and what is said of them before the usage.
const REFUSED: [Call; 5] = [
    (
        "an unknown option",
        &["--wide", "-"],
        b"",
        "yamljson: --wide: no such option",
    ),
    (
        "a letter that is no option",
        &["-i", "-"],
        b"",
        "yamljson: -i: no such option",
    ),
    (
        "a value that is no number",
        &["--max-levels=few"],
        b"",
        "yamljson: few: no value of --max-levels",
    ),
    (
        "a value is missing",
        &["--max-size"],
        b"",
        "yamljson: --max-size: this option takes a value",
    ),
    (
        "a value too many",
        &["--indent=3"],
        b"",
        "yamljson: --indent=3: this option takes no value",
    ),
];

// The rows of which something else is printed than this and what ends them all.
fn failed_calls(rt: &HostRuntime, rows: &[Call], end: &str) -> Result<Report, Fail> {
    let alloc = rt.alloc();
    let mut report = Report::new(alloc);
    for (name, list, input, want) in rows {
        let args = words(alloc, list)?;
        let found = ran(rt, args.as_slice(), input)?;
        let want = format!(in alloc; "{want}{end}")?;
        report.compare(name, "printed", found.as_str(), want.as_str())?;
    }
    Ok(report)
}

#[test]
fn arguments_are_read_as_a_shell_gives_them(rt: HostRuntime) -> Result<(), Fail> {
    let report = failed_calls(&rt, &CALLS, "")?;
    assert!(rt; report.is_empty(), "{report}");
    let end = "\nusage: yamljson [OPTION]... [FILE]...\n2";
    let report = failed_calls(&rt, &REFUSED, end)?;
    assert!(rt; report.is_empty(), "{report}");
    Ok(())
}

const HELP: &[&str] = &[
    "usage: yamljson [OPTION]... [FILE]...\n",
    "\n  --indent ",
    "\n  --max-levels N ",
    "\n  --max-size N ",
    "\n  --no-limits ",
    "\n  -h, --help ",
    "\n  --version ",
];

// The parts that the help lacks on the standard output, and what else is wrong with it.
fn missing(rt: &HostRuntime, list: &[&str], parts: &[&str]) -> Result<Report, Fail> {
    let alloc = rt.alloc();
    let args = words(alloc, list)?;
    let mut input: &[u8] = b"";
    let mut out = Vec::new(alloc);
    let mut err = Vec::new(alloc);
    let status = YamlJson::run(rt, alloc, args.as_slice(), &mut input, &mut out, &mut err);
    let help = String::from_utf8_lossy(alloc, out.as_slice())?;
    let mut report = Report::new(alloc);
    report.check("the help", "with status 0", status == 0)?;
    report.check(
        "the help",
        "with nothing on the standard error",
        err.is_empty(),
    )?;
    for part in parts {
        report.check(part, "in the help", help.contains(*part))?;
    }
    Ok(report)
}

#[test]
fn the_help_has_all_options(rt: HostRuntime) -> Result<(), Fail> {
    let report = missing(&rt, &["--help"], HELP)?;
    assert!(rt; report.is_empty(), "{report}");
    let report = missing(&rt, &["-h", "--wide"], HELP)?;
    assert!(rt; report.is_empty(), "{report}");
    Ok(())
}

// What is said, and the status, for arguments, an input and an output.
fn told_of<I: Read, O: Write>(
    rt: &HostRuntime,
    list: &[&str],
    input: &mut I,
    out: &mut O,
) -> Result<String, Fail> {
    let alloc = rt.alloc();
    let args = words(alloc, list)?;
    let mut err = Vec::new(alloc);
    let status = YamlJson::run(rt, alloc, args.as_slice(), input, out, &mut err);
    let said = String::from_utf8_lossy(alloc, err.as_slice())?;
    Ok(format!(in alloc; "{said}{status}")?)
}

#[test]
fn inputs_that_fail_are_told(rt: HostRuntime) -> Result<(), Fail> {
    let mut input = Failing(ErrorKind::PermissionDenied);
    let mut out = Vec::new(rt.alloc());
    assert_eq!(rt;
        told_of(&rt, &["-"], &mut input, &mut out)?.as_str(),
        "yamljson: cannot read -: it is not permitted\n1"
    );
    let mut input = Failing(ErrorKind::OutOfMemory);
    assert_eq!(rt;
        told_of(&rt, &[], &mut input, &mut out)?.as_str(),
        "yamljson: out of memory\n1"
    );
    assert!(rt; out.is_empty());
    Ok(())
}

// A pipe that is closed ends the program without a word.
#[test]
fn outputs_that_fail_are_told(rt: HostRuntime) -> Result<(), Fail> {
    let mut input: &[u8] = b"1";
    let mut out = Failing(ErrorKind::BrokenPipe);
    assert_eq!(rt;
        told_of(&rt, &["-", "no/such/file"], &mut input, &mut out)?.as_str(),
        "1"
    );
    assert_eq!(rt;
        told_of(&rt, &["--version"], &mut input, &mut out)?.as_str(),
        "1"
    );
    let mut out = Failing(ErrorKind::StorageFull);
    assert_eq!(rt;
        told_of(&rt, &["-"], &mut input, &mut out)?.as_str(),
        "yamljson: cannot write\n1"
    );
    Ok(())
}

// 300 levels: more than the limit, and no more than `--no-limits` allows.
#[test]
fn limits_can_be_lifted(rt: HostRuntime) -> Result<(), Fail> {
    let alloc = rt.alloc();
    let text = "- ".repeat(alloc, 300)?;
    let limited = ran(&rt, &[], text.as_str().as_bytes())?;
    assert_eq!(rt; limited.as_str(), "-:1:513: too many levels\n1");
    let args = words(alloc, &["--no-limits"])?;
    let lifted = ran(&rt, args.as_slice(), text.as_str().as_bytes())?;
    assert!(rt; lifted.starts_with("[[[["), "{lifted}");
    assert!(rt; lifted.ends_with("]]]]\n0"), "{lifted}");
    Ok(())
}
