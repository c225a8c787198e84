use crate::run::YamlTool;
use std::alloc::{Allocator, Global};
use std::fs::{File, Metadata, OpenOptions};
use std::io::{ErrorKind, Write};
use std::process::Abort;
use std::rt::{Env, Files};
use std::test::Fail;
use std::{env, fs, io};
use test_rows::Report;

const USAGE: &str =
    "usage: yamltool events FILE | dump [--spread] [--multiline] FILE | overlay A B\n";

const WANT: &str = "yamltool: out of memory\n";

// A writer that takes a number of writes, and whose flush may fail.
#[derive(Drop)]
struct Failing {
    writes: usize,
    flushes: bool,
}

impl Write for Failing {
    fn write(&mut self, bytes: &[u8]) -> io::Result<usize> {
        if self.writes == 0 {
            return Err(io::Error::from(ErrorKind::StorageFull));
        }
        self.writes -= 1;
        Ok(bytes.len())
    }

    fn flush(&mut self) -> io::Result<()> {
        if self.flushes {
            return Ok(());
        }
        Err(io::Error::from(ErrorKind::BrokenPipe))
    }
}

// Files that find no memory, but for the standard input, which is the file at this path.
#[derive(Clone, Copy)]
struct OnlyInput<'a> {
    rt: &'a HostRuntime,
    path: &'a str,
}

fn refused<T>() -> io::Result<T> {
    Err(io::Error::from(ErrorKind::OutOfMemory))
}

impl Files for OnlyInput<'_> {
    type File = File;

    type Dir = File;

    fn open_file(&self, how: &OpenOptions, path: &str) -> io::Result<File> {
        if path == "/dev/stdin" {
            return self.rt.open_file(how, self.path);
        }
        refused()
    }

    fn open_dir(&self, _path: &str) -> io::Result<File> {
        refused()
    }

    fn metadata(&self, _path: &str) -> io::Result<Metadata> {
        refused()
    }

    fn symlink_metadata(&self, _path: &str) -> io::Result<Metadata> {
        refused()
    }

    fn copy(&self, _from: &str, _to: &str) -> io::Result<u64> {
        refused()
    }

    fn rename(&self, _from: &str, _to: &str) -> io::Result<()> {
        refused()
    }

    fn remove_file(&self, _path: &str) -> io::Result<()> {
        refused()
    }

    fn create_dir(&self, _path: &str) -> io::Result<()> {
        refused()
    }

    fn remove_dir(&self, _path: &str) -> io::Result<()> {
        refused()
    }

    fn remove_dir_all<B: Allocator>(&self, _alloc: B, _path: &str) -> io::Result<()> {
        refused()
    }
}

fn words(alloc: Global, list: &[&str]) -> Result<Vec<String>, Fail> {
    let mut all = Vec::new(alloc);
    for word in list {
        all.push(String::from_str(alloc, word)?)?;
    }
    Ok(all)
}

// The program's output for these arguments, and what it says of a failure with its status.
fn ran(rt: &HostRuntime, args: &[String]) -> Result<(String, String), Fail> {
    let alloc = rt.alloc();
    let mut out = Vec::new(alloc);
    let mut err = Vec::new(alloc);
    let status = YamlTool::run(rt, alloc, args, &mut out, &mut err);
    let printed = String::from_utf8_lossy(alloc, out.as_slice())?;
    let said = String::from_utf8_lossy(alloc, err.as_slice())?;
    Ok((
        format!(in alloc; "{printed}")?,
        format!(in alloc; "{said}{status}")?,
    ))
}

// Both for a command and a file that holds these bytes.
fn told(rt: &HostRuntime, command: &[&str], bytes: &[u8]) -> Result<String, Fail> {
    let alloc = rt.alloc();
    let path = env::temp_dir(rt)?.join(alloc, "yamltool-test.yaml")?;
    fs::write(rt, path.as_path(), bytes)?;
    let name = path.as_path().to_str().unwrap_or("");
    let mut args = words(alloc, command)?;
    args.push(String::from_str(alloc, name)?)?;
    let (printed, said) = ran(rt, args.as_slice())?;
    let text = format!(in alloc; "{printed}{said}")?;
    Ok(text.replace(alloc, name, "FILE")?)
}

const EVENTS: &[&str] = &["events"];

const DUMP: &[&str] = &["dump"];

const OVERLAY: &[&str] = &["overlay"];

// What it shows, a command with its options, what the file holds, and all that is printed.
type Row = (
    &'static str,
    &'static [&'static str],
    &'static [u8],
    &'static str,
);

const ROWS: [Row; 13] = [
    (
        "events with lines and columns",
        EVENTS,
        b"[1, 2]",
        "StreamStart 1:0\nDocumentStart 1:0\nSequenceStart 1:0\nScalar 1:1 plain \"1\"\nScalar 1:4 plain \"2\"\nSequenceEnd 1:5\nDocumentEnd 2:0\nStreamEnd 2:0\n0",
    ),
    (
        "a byte order mark is no character of the text",
        EVENTS,
        b"\xEF\xBB\xBF[1, 2]",
        "StreamStart 1:0\nDocumentStart 1:0\nSequenceStart 1:0\nScalar 1:1 plain \"1\"\nScalar 1:4 plain \"2\"\nSequenceEnd 1:5\nDocumentEnd 2:0\nStreamEnd 2:0\n0",
    ),
    (
        "UTF-16, little endian",
        EVENTS,
        b"\xFF\xFE\xE9\x00",
        "StreamStart 1:0\nDocumentStart 1:0\nScalar 1:0 plain \"\u{E9}\"\nDocumentEnd 2:0\nStreamEnd 2:0\n0",
    ),
    (
        "UTF-16, big endian",
        DUMP,
        b"\xFE\xFF\x00a\x00:\x00 \x001",
        "---\na: 1\n0",
    ),
    (
        "UTF-16 that ends within a unit",
        DUMP,
        b"\xFE\xFF\x00a\x00",
        "yamltool: FILE is not UTF-8\n1",
    ),
    (
        "a tag and an anchor",
        EVENTS,
        b"!!int &x 5",
        "StreamStart 1:0\nDocumentStart 1:0\nScalar 1:9 &1 tag \"tag:yaml.org,2002:\" \"int\" plain \"5\"\nDocumentEnd 2:0\nStreamEnd 2:0\n0",
    ),
    (
        "events before a fault",
        EVENTS,
        b"[1",
        "StreamStart 1:0\nDocumentStart 1:0\nSequenceStart 1:0\nScalar 1:1 plain \"1\"\nwhile parsing a flow sequence, expected ',' or ']' at byte 2 line 2 column 1\n1",
    ),
    (
        "bytes that are no UTF-8",
        EVENTS,
        b"a\xFF",
        "yamltool: FILE is not UTF-8\n1",
    ),
    (
        "a dump of each document",
        DUMP,
        b"--- 1\n--- 2",
        "---\n1\n---\n2\n0",
    ),
    (
        "a literal block",
        &["dump", "--multiline"],
        b"{foo: \"bar!\\nbar!\", baz: 42}",
        "---\nfoo: |-\n  bar!\n  bar!\nbaz: 42\n0",
    ),
    (
        "a compact dump",
        DUMP,
        b"[[1, 2], []]",
        "---\n- - 1\n  - 2\n- []\n0",
    ),
    (
        "a dump that is not compact",
        &["dump", "--multiline", "--spread"],
        b"[[1, 2], []]",
        "---\n-\n  - 1\n  - 2\n- []\n0",
    ),
    (
        "a fault, and so no dump",
        DUMP,
        b"1\n---\n[",
        "while parsing a node, did not find expected node content at byte 7 line 4 column 1\n1",
    ),
];

// The rows of which something else is printed.
fn failed(rt: &HostRuntime, rows: &[Row]) -> Result<Report, Fail> {
    let mut report = Report::new(rt.alloc());
    for (name, command, bytes, want) in rows {
        let found = told(rt, command, bytes)?;
        report.compare(name, "printed", found.as_str(), want)?;
    }
    Ok(report)
}

#[test]
fn files_are_printed(rt: HostRuntime) -> Result<(), Fail> {
    let report = failed(&rt, &ROWS)?;
    assert!(rt; report.is_empty(), "{report}");
    Ok(())
}

// What it shows, what the two files, `A` and `B`, hold, and all that is printed. `A` is read, loaded and counted first.
type Overlay = (&'static str, &'static [u8], &'static [u8], &'static str);

const OVERLAYS: [Overlay; 6] = [
    (
        "mappings are laid over each other, pair by pair",
        b"a: 1\nb: {c: 2}",
        b"b: {d: 3}\ne: 4",
        "---\na: 1\nb:\n  c: 2\n  d: 3\ne: 4\n0",
    ),
    (
        "no document in A",
        b"",
        b"a: 1",
        "yamltool: A holds 0 documents\n1",
    ),
    (
        "two documents in A",
        b"1\n---\n2",
        b"\xFF",
        "yamltool: A holds 2 documents\n1",
    ),
    (
        "a fault in A",
        b"*a",
        b"\xFF",
        "while parsing node, found unknown anchor at byte 0 line 1 column 1\n1",
    ),
    (
        "bytes that are no UTF-8 in B",
        b"1",
        b"\xFF",
        "yamltool: B is not UTF-8\n1",
    ),
    (
        "no document in B",
        b"1",
        b"",
        "yamltool: B holds 0 documents\n1",
    ),
];

// Both for two files that hold these bytes.
fn told_of_two(rt: &HostRuntime, below: &[u8], above: &[u8]) -> Result<String, Fail> {
    let alloc = rt.alloc();
    let left = env::temp_dir(rt)?.join(alloc, "yamltool-left.yaml")?;
    let right = env::temp_dir(rt)?.join(alloc, "yamltool-right.yaml")?;
    let left_name = left.as_path().to_str().unwrap_or("");
    let right_name = right.as_path().to_str().unwrap_or("");
    fs::write(rt, left.as_path(), below)?;
    fs::write(rt, right.as_path(), above)?;
    let mut args = words(alloc, OVERLAY)?;
    args.push(String::from_str(alloc, left_name)?)?;
    args.push(String::from_str(alloc, right_name)?)?;
    let (printed, said) = ran(rt, args.as_slice())?;
    let text = format!(in alloc; "{printed}{said}")?;
    let text = text.replace(alloc, left_name, "A")?;
    Ok(text.replace(alloc, right_name, "B")?)
}

// The rows of which something else is printed.
fn failed_overlays(rt: &HostRuntime, rows: &[Overlay]) -> Result<Report, Fail> {
    let mut report = Report::new(rt.alloc());
    for (name, below, above, want) in rows {
        let found = told_of_two(rt, below, above)?;
        report.compare(name, "printed", found.as_str(), want)?;
    }
    Ok(report)
}

#[test]
fn files_are_laid_over_each_other(rt: HostRuntime) -> Result<(), Fail> {
    let report = failed_overlays(&rt, &OVERLAYS)?;
    assert!(rt; report.is_empty(), "{report}");
    Ok(())
}

// What a dump of 300 levels prints, and what it says with the status, for these words before the command: more levels than the limit,
// and no more than `--no-limits` allows.
fn deep_dump(rt: &HostRuntime, before: &[&str]) -> Result<(String, String), Fail> {
    let alloc = rt.alloc();
    let path = env::temp_dir(rt)?.join(alloc, "yamltool-deep.yaml")?;
    let text = "- ".repeat(alloc, 300)?;
    fs::write(rt, path.as_path(), text.as_str().as_bytes())?;
    let mut args = words(alloc, before)?;
    args.push(String::from_str(alloc, "dump")?)?;
    args.push(String::from_str(alloc, path.as_path().to_str().unwrap_or(""))?)?;
    ran(rt, args.as_slice())
}

#[test]
fn limits_can_be_lifted(rt: HostRuntime) -> Result<(), Fail> {
    let (printed, said) = deep_dump(&rt, &[])?;
    assert!(rt; printed.is_empty());
    assert_eq!(rt; said.as_str(), "too many levels at line 1 column 513\n1");
    let (printed, said) = deep_dump(&rt, &["--no-limits"])?;
    assert!(rt; printed.starts_with("---\n- - - "), "{printed}");
    assert_eq!(rt; said.as_str(), "0");
    Ok(())
}

#[test]
fn files_that_cannot_be_read_are_told(rt: HostRuntime) -> Result<(), Fail> {
    let alloc = rt.alloc();
    let args = words(alloc, &["events", "no/such/file"])?;
    let (printed, said) = ran(&rt, args.as_slice())?;
    assert_eq!(rt; said.as_str(), "yamltool: cannot read no/such/file\n1");
    assert!(rt; printed.is_empty());
    let mut out = Vec::new(alloc);
    let mut err = Vec::new(alloc);
    let files = OnlyInput { rt: &rt, path: "" };
    let status = YamlTool::run(&files, alloc, args.as_slice(), &mut out, &mut err);
    assert_eq!(rt; status, 1);
    assert_eq!(rt; err.as_slice(), WANT.as_bytes());
    assert!(rt; out.is_empty());
    Ok(())
}

#[test]
fn a_dash_is_the_standard_input(rt: HostRuntime) -> Result<(), Fail> {
    let alloc = rt.alloc();
    let path = env::temp_dir(&rt)?.join(alloc, "yamltool-input.yaml")?;
    fs::write(&rt, path.as_path(), b"{a: 1}")?;
    let files = OnlyInput {
        rt: &rt,
        path: path.as_path().to_str().unwrap_or(""),
    };
    let args = words(alloc, &["dump", "-"])?;
    let mut out = Vec::new(alloc);
    let mut err = Vec::new(alloc);
    let status = YamlTool::run(&files, alloc, args.as_slice(), &mut out, &mut err);
    assert_eq!(rt; out.as_slice(), b"---\na: 1\n".as_slice());
    assert!(rt; err.is_empty());
    assert_eq!(rt; status, 0);
    Ok(())
}

// What is printed, and the status, if the output takes a number of writes and its flush may fail.
fn told_of_output(
    rt: &HostRuntime,
    command: &str,
    path: &str,
    writes: usize,
    flushes: bool,
) -> Result<String, Fail> {
    let alloc = rt.alloc();
    let args = words(alloc, &[command, path])?;
    let mut out = Failing { writes, flushes };
    let mut err = Vec::new(alloc);
    let status = YamlTool::run(rt, alloc, args.as_slice(), &mut out, &mut err);
    let text = String::from_utf8_lossy(alloc, err.as_slice())?;
    Ok(format!(in alloc; "{text}{status}")?)
}

const UNWRITTEN: &str = "yamltool: cannot write\n1";

// A full disk, one that fills up, and a pipe that is closed when the output is flushed. A dump is one write.
type Output = (&'static str, &'static str, usize, bool, &'static str);

const OUTPUTS: [Output; 6] = [
    ("events on a full disk", "events", 0, true, UNWRITTEN),
    (
        "events on a disk that fills up",
        "events",
        2,
        true,
        UNWRITTEN,
    ),
    (
        "events into a closed pipe",
        "events",
        1000,
        false,
        UNWRITTEN,
    ),
    ("a dump on a full disk", "dump", 0, true, UNWRITTEN),
    ("a dump that takes one write", "dump", 2, true, "0"),
    ("a dump into a closed pipe", "dump", 1000, false, UNWRITTEN),
];

// The rows of which something else is told, with the file of this path.
fn failed_outputs(rt: &HostRuntime, path: &str, rows: &[Output]) -> Result<Report, Fail> {
    let mut report = Report::new(rt.alloc());
    for (name, command, writes, flushes, want) in rows {
        let told = told_of_output(rt, command, path, *writes, *flushes)?;
        report.compare(name, "told", told.as_str(), want)?;
    }
    Ok(report)
}

#[test]
fn outputs_that_fail_are_told(rt: HostRuntime) -> Result<(), Fail> {
    let path = env::temp_dir(&rt)?.join(rt.alloc(), "yamltool-failing.yaml")?;
    fs::write(&rt, path.as_path(), b"a")?;
    let name = path.as_path().to_str().unwrap_or("");
    let report = failed_outputs(&rt, name, &OUTPUTS)?;
    assert!(rt; report.is_empty(), "{report}");
    Ok(())
}

// What it shows, and the arguments.
type Arguments = (&'static str, &'static [&'static str]);

const UNKNOWN: [Arguments; 11] = [
    ("no command", &[]),
    ("events without a file", &["events"]),
    ("events with an option", &["events", "--spread", "x"]),
    ("a dump without a file", &["dump"]),
    ("an unknown option", &["dump", "--wide", "x"]),
    (
        "an option behind two dashes",
        &["dump", "--", "--spread", "x"],
    ),
    (
        "an option for limits behind a command",
        &["dump", "--no-limits", "x"],
    ),
    ("an option without a command", &["--no-limits"]),
    (
        "an option twice",
        &["--no-limits", "--no-limits", "dump", "x"],
    ),
    ("an overlay of one file", &["overlay", "a"]),
    ("an overlay of three files", &["overlay", "a", "b", "c"]),
];

// The rows of which something else is said than this, or of which something is printed.
fn failed_arguments(rt: &HostRuntime, want: &str, rows: &[Arguments]) -> Result<Report, Fail> {
    let mut report = Report::new(rt.alloc());
    for (name, list) in rows {
        let args = words(rt.alloc(), list)?;
        let (printed, said) = ran(rt, args.as_slice())?;
        report.compare(name, "said", said.as_str(), want)?;
        report.compare(name, "printed", printed.as_str(), "")?;
    }
    Ok(report)
}

#[test]
fn other_arguments_give_the_usage(rt: HostRuntime) -> Result<(), Fail> {
    let want = format!(in rt.alloc(); "{USAGE}2")?;
    let report = failed_arguments(&rt, want.as_str(), &UNKNOWN)?;
    assert!(rt; report.is_empty(), "{report}");
    Ok(())
}

// What it shows, the arguments, and what is printed and said. Only a first word asks for the help or the version.
type Call = (&'static str, &'static [&'static str], &'static str);

const CALLS: [Call; 4] = [
    ("the version", &["--version"], "yamltool 0.1.0\n0"),
    (
        "a file behind a command",
        &["events", "--help"],
        "yamltool: cannot read --help\n1",
    ),
    ("a directory", &["dump", "."], "yamltool: cannot read .\n1"),
    (
        "a file that is called as an option",
        &["dump", "--spread"],
        "yamltool: cannot read --spread\n1",
    ),
];

// The rows of which something else is printed.
fn failed_calls(rt: &HostRuntime, rows: &[Call]) -> Result<Report, Fail> {
    let alloc = rt.alloc();
    let mut report = Report::new(alloc);
    for (name, list, want) in rows {
        let args = words(alloc, list)?;
        let (printed, said) = ran(rt, args.as_slice())?;
        let found = format!(in alloc; "{printed}{said}")?;
        report.compare(name, "printed", found.as_str(), want)?;
    }
    Ok(report)
}

#[test]
fn other_words_are_files(rt: HostRuntime) -> Result<(), Fail> {
    let report = failed_calls(&rt, &CALLS)?;
    assert!(rt; report.is_empty(), "{report}");
    Ok(())
}

const HELP: &[&str] = &[
    USAGE,
    "\n  --spread ",
    "\n  --multiline ",
    "\n  --no-limits ",
    "\n  -h, --help ",
    "\n  --version ",
    "columns from 0",
    "called a byte is a character",
];

// The parts that the help lacks, or what is said beside it.
fn missing(rt: &HostRuntime, word: &str, parts: &[&str]) -> Result<Report, Fail> {
    let args = words(rt.alloc(), &[word])?;
    let (help, said) = ran(rt, args.as_slice())?;
    let mut report = Report::new(rt.alloc());
    report.compare(word, "said", said.as_str(), "0")?;
    for part in parts {
        report.check(part, "in the help", help.as_str().contains(*part))?;
    }
    Ok(report)
}

#[test]
fn the_help_has_all_options(rt: HostRuntime) -> Result<(), Fail> {
    let report = missing(&rt, "--help", HELP)?;
    assert!(rt; report.is_empty(), "{report}");
    let report = missing(&rt, "-h", HELP)?;
    assert!(rt; report.is_empty(), "{report}");
    Ok(())
}

// What is said at the start, and the status.
fn told_of_start(
    rt: &HostRuntime,
    args: io::Result<Vec<String>>,
    out: io::Result<Vec<u8>>,
) -> Result<String, Fail> {
    let alloc = rt.alloc();
    let mut err = Vec::new(alloc);
    let status = YamlTool::start(rt, alloc, args, out, &mut err);
    let said = String::from_utf8_lossy(alloc, err.as_slice())?;
    Ok(format!(in alloc; "{said}{status}")?)
}

// Arguments that are not UTF-8 or found no memory.
#[test]
fn arguments_that_cannot_be_had_are_told(rt: HostRuntime) -> Result<(), Fail> {
    let alloc = rt.alloc();
    let args = Err(io::Error::from(ErrorKind::InvalidData));
    let told = told_of_start(&rt, args, Ok(Vec::new(alloc)))?;
    assert_eq!(rt; told.as_str(), format!(in alloc; "{USAGE}2")?.as_str());
    let args = Err(io::Error::from(ErrorKind::OutOfMemory));
    let told = told_of_start(&rt, args, Ok(Vec::new(alloc)))?;
    assert_eq!(rt; told.as_str(), format!(in alloc; "{WANT}1")?.as_str());
    Ok(())
}

#[test]
fn an_output_that_finds_no_memory_is_told(rt: HostRuntime) -> Result<(), Fail> {
    let alloc = rt.alloc();
    let args = words(alloc, &["events", "x"])?;
    let out = Err(io::Error::from(ErrorKind::OutOfMemory));
    let told = told_of_start(&rt, Ok(args), out)?;
    assert_eq!(rt; told.as_str(), format!(in alloc; "{WANT}1")?.as_str());
    Ok(())
}
