use crate::run::YamlCheck;
use std::alloc::Global;
use std::io::{ErrorKind, Read, Write};
use std::test::Fail;
use std::{env, fs, io};
use test_rows::Report;
use yaml_programs::FileProgram;

// A writer that fails, and a reader.
#[derive(Clone, Copy)]
struct Failing(ErrorKind);

impl Write for Failing {
    fn write(&mut self, _bytes: &[u8]) -> io::Result<usize> {
        Err(io::Error::from(self.0))
    }

    fn flush(&mut self) -> io::Result<()> {
        Err(io::Error::from(self.0))
    }
}

impl Read for Failing {
    fn read(&mut self, _bytes: &mut [u8]) -> io::Result<usize> {
        Err(io::Error::from(self.0))
    }
}

fn words(alloc: Global, list: &[&str]) -> Result<Vec<String>, Fail> {
    let mut all = Vec::new(alloc);
    for word in list {
        all.push(String::from_str(alloc, word)?)?;
    }
    Ok(all)
}

// All that is printed, and the status, for arguments and the bytes of the standard input.
fn ran(rt: &HostRuntime, args: &[String], input: &[u8]) -> Result<String, Fail> {
    let alloc = rt.alloc();
    let mut input = input;
    let mut out = Vec::new(alloc);
    let mut err = Vec::new(alloc);
    let status = YamlCheck::run(rt, alloc, args, &mut input, &mut out, &mut err);
    let printed = String::from_utf8_lossy(alloc, out.as_slice())?;
    let said = String::from_utf8_lossy(alloc, err.as_slice())?;
    Ok(format!(in alloc; "{printed}{said}{status}")?)
}

// The same for options and a file that holds these bytes.
fn told(rt: &HostRuntime, options: &[&str], bytes: &[u8]) -> Result<String, Fail> {
    let alloc = rt.alloc();
    let path = env::temp_dir(rt)?.join(alloc, "yamlcheck-test.yaml")?;
    fs::write(rt, path.as_path(), bytes)?;
    let name = path.as_path().to_str().unwrap_or("");
    let mut args = words(alloc, options)?;
    args.push(String::from_str(alloc, name)?)?;
    let text = ran(rt, args.as_slice(), b"")?;
    Ok(text.replace(alloc, name, "FILE")?)
}

// What it shows, the options, what the file holds, and all that is printed.
type Row = (
    &'static str,
    &'static [&'static str],
    &'static [u8],
    &'static str,
);

const ROWS: [Row; 14] = [
    ("a text that loads", &[], b"a: [1, 2]\n", "0"),
    ("an empty file", &[], b"", "0"),
    (
        "the caret stands at the text's end",
        &[],
        b"ports: [80, 443",
        "FILE:2:1: while parsing a flow sequence, expected ',' or ']'\nports: [80, 443\n               ^\n1",
    ),
    (
        "the line before the end is shown",
        &[],
        b"a: 1\nb: @x\nc: 3\n",
        "FILE:2:4: unexpected character: `@'\nb: @x\n   ^\n1",
    ),
    (
        "a TAB stands in the caret's line too",
        &[],
        b"a:\t@x",
        "FILE:1:4: unexpected character: `@'\na:\t@x\n  \t^\n1",
    ),
    (
        "a control character is hidden",
        &[],
        b"a: \"\x07\" @",
        "FILE:1:8: invalid trailing content after double-quoted scalar\na: \"\u{FFFD}\" @\n       ^\n1",
    ),
    (
        "UTF-16 that loads",
        &[],
        b"\xFE\xFF\x00a\x00:\x00 \x001",
        "0",
    ),
    (
        "UTF-16, big endian",
        &[],
        b"\xFE\xFF\x00a\x00:\x00 \x00@",
        "FILE:1:4: unexpected character: `@'\na: @\n   ^\n1",
    ),
    (
        "UTF-16 without a byte order mark",
        &[],
        b"a\x00:\x00 \x00@\x00",
        "FILE:1:4: unexpected character: `@'\na: @\n   ^\n1",
    ),
    (
        "UTF-16, little endian",
        &[],
        b"\xFF\xFEa\x00:\x00 \x00@\x00",
        "FILE:1:4: unexpected character: `@'\na: @\n   ^\n1",
    ),
    (
        "bytes that are no text",
        &[],
        b"a: \xFF",
        "yamlcheck: FILE: Invalid character sequence at 3: [255]\n1",
    ),
    (
        "too many levels",
        &["--max-levels", "2"],
        b"- - - a",
        "FILE:1:5: too many levels\n- - - a\n    ^\n1",
    ),
    (
        "too many nodes",
        &["--max-size", "3"],
        b"[a, b]",
        "FILE:1:5: too large\n[a, b]\n    ^\n1",
    ),
    (
        "an alias counts as a copy of its node",
        &["--max-size", "20"],
        b"- &a [x, y]\n- *a\n- *a\n",
        "FILE:3:3: too large\n- *a\n  ^\n1",
    ),
];

// The rows of which something else is printed.
fn failed(rt: &HostRuntime, rows: &[Row]) -> Result<Report, Fail> {
    let mut report = Report::new(rt.alloc());
    for (name, options, bytes, want) in rows {
        let found = told(rt, options, bytes)?;
        report.compare(name, "printed", found.as_str(), want)?;
    }
    Ok(report)
}

#[test]
fn faults_are_told_with_their_lines(rt: HostRuntime) -> Result<(), Fail> {
    let report = failed(&rt, &ROWS)?;
    assert!(rt; report.is_empty(), "{report}");
    Ok(())
}

// Of a long line the part around the caret is shown.
#[test]
fn long_lines_are_cut(rt: HostRuntime) -> Result<(), Fail> {
    let alloc = rt.alloc();
    let before = "0123456789".repeat(alloc, 10)?;
    let after = "9876543210".repeat(alloc, 10)?;
    let text = format!(in alloc; "\"{before}\" {after}")?;
    let shown =
        "...23456789012345678901234567890123456789\" 9876543210987654321098765432109876543210...";
    let caret = " ".repeat(alloc, 43)?;
    let want = format!(in alloc;
        "FILE:1:104: invalid trailing content after double-quoted scalar\n{shown}\n{caret}^\n1"
    )?;
    assert_eq!(rt;
        told(&rt, &[], text.as_str().as_bytes())?.as_str(),
        want.as_str()
    );
    Ok(())
}

// What it shows, the arguments, what the standard input has, and all that is printed.
type Call = (
    &'static str,
    &'static [&'static str],
    &'static [u8],
    &'static str,
);

const TOO_DEEP: &str = "-:1:5: too many levels\n- - - a\n    ^\n1";

const CALLS: [Call; 15] = [
    (
        "without a file the standard input is read",
        &[],
        b"b: @x",
        "-:1:4: unexpected character: `@'\nb: @x\n   ^\n1",
    ),
    ("a dash is the standard input", &["-"], b"a: 1\n", "0"),
    (
        "each file is tried",
        &["no/such/file", "-"],
        b"[",
        "-:2:1: while parsing a node, did not find expected node content\n[\n ^\nyamlcheck: cannot read no/such/file: there is no such file\n1",
    ),
    (
        "a file that is well mends no status",
        &["no/such/file", "-"],
        b"a: 1",
        "yamlcheck: cannot read no/such/file: there is no such file\n1",
    ),
    (
        "a file behind one that is well",
        &["-", "no/such/file"],
        b"a: 1",
        "yamlcheck: cannot read no/such/file: there is no such file\n1",
    ),
    (
        "a directory",
        &["."],
        b"",
        "yamlcheck: cannot read .: it is a directory\n1",
    ),
    (
        "options before a file",
        &["--max-levels", "2", "-"],
        b"- - - a",
        TOO_DEEP,
    ),
    (
        "an option without a file",
        &["--max-levels=2"],
        b"- - - a",
        TOO_DEEP,
    ),
    (
        "options behind a file",
        &["-", "--max-levels", "2"],
        b"- - - a",
        TOO_DEEP,
    ),
    (
        "a value behind a sign",
        &["--max-levels=2", "-"],
        b"- - - a",
        TOO_DEEP,
    ),
    (
        "the last value counts",
        &["--max-levels", "2", "--max-levels", "4"],
        b"- - - a",
        "0",
    ),
    (
        "no limits but those given",
        &["--max-levels", "2", "--no-limits"],
        b"- - - a",
        TOO_DEEP,
    ),
    (
        "behind two dashes there are files",
        &["--", "--version"],
        b"",
        "yamlcheck: cannot read --version: there is no such file\n1",
    ),
    (
        "options before two dashes",
        &["--max-levels", "2", "--", "-"],
        b"- - - a",
        TOO_DEEP,
    ),
    ("the version", &["--version"], b"", "yamlcheck 0.1.0\n0"),
];

// The arguments that are not taken, and what is said of them before the usage.
const REFUSED: [Call; 7] = [
    (
        "an unknown option",
        &["--max-depth", "3"],
        b"",
        "yamlcheck: --max-depth: no such option",
    ),
    (
        "a letter that is no option",
        &["-x"],
        b"",
        "yamlcheck: -x: no such option",
    ),
    (
        "a value is missing",
        &["-", "--max-size"],
        b"",
        "yamlcheck: --max-size: this option takes a value",
    ),
    (
        "two dashes are no value",
        &["--max-size", "--", "3"],
        b"",
        "yamlcheck: --max-size: this option takes a value",
    ),
    (
        "a value behind a sign that is no number",
        &["--max-size=much"],
        b"",
        "yamlcheck: much: no value of --max-size",
    ),
    (
        "a value too many",
        &["--no-limits=3"],
        b"",
        "yamlcheck: --no-limits=3: this option takes no value",
    ),
    (
        "a value that is no number",
        &["--max-size", "much"],
        b"",
        "yamlcheck: much: no value of --max-size",
    ),
];

// The rows of which something else is printed than this and what ends them all.
fn failed_calls(rt: &HostRuntime, rows: &[Call], end: &str) -> Result<Report, Fail> {
    let alloc = rt.alloc();
    let mut report = Report::new(alloc);
    for (name, list, input, want) in rows {
        let args = words(alloc, list)?;
        let found = ran(rt, args.as_slice(), input)?;
        let want = format!(in alloc; "{want}{end}")?;
        report.compare(name, "printed", found.as_str(), want.as_str())?;
    }
    Ok(report)
}

#[test]
fn arguments_are_read_as_a_shell_gives_them(rt: HostRuntime) -> Result<(), Fail> {
    let report = failed_calls(&rt, &CALLS, "")?;
    assert!(rt; report.is_empty(), "{report}");
    let end = "\nusage: yamlcheck [OPTION]... [FILE]...\n2";
    let report = failed_calls(&rt, &REFUSED, end)?;
    assert!(rt; report.is_empty(), "{report}");
    Ok(())
}

const HELP: &[&str] = &[
    "usage: yamlcheck [OPTION]... [FILE]...\n",
    "\n  --max-levels N ",
    "\n  --max-size N ",
    "\n  --no-limits ",
    "\n  -h, --help ",
    "\n  --version ",
];

// The parts that the help lacks on the standard output, and what else is wrong with it.
fn missing(rt: &HostRuntime, list: &[&str], parts: &[&str]) -> Result<Report, Fail> {
    let alloc = rt.alloc();
    let args = words(alloc, list)?;
    let mut input: &[u8] = b"";
    let mut out = Vec::new(alloc);
    let mut err = Vec::new(alloc);
    let status = YamlCheck::run(rt, alloc, args.as_slice(), &mut input, &mut out, &mut err);
    let help = String::from_utf8_lossy(alloc, out.as_slice())?;
    let mut report = Report::new(alloc);
    report.check("the help", "with status 0", status == 0)?;
    report.check(
        "the help",
        "with nothing on the standard error",
        err.is_empty(),
    )?;
    for part in parts {
        report.check(part, "in the help", help.contains(*part))?;
    }
    Ok(report)
}

#[test]
fn the_help_has_all_options(rt: HostRuntime) -> Result<(), Fail> {
    let report = missing(&rt, &["--help"], HELP)?;
    assert!(rt; report.is_empty(), "{report}");
    let report = missing(&rt, &["-h", "--wide"], HELP)?;
    assert!(rt; report.is_empty(), "{report}");
    Ok(())
}

// What is said, and the status, for arguments, an input and an output.
fn told_of<I: Read, O: Write>(
    rt: &HostRuntime,
    list: &[&str],
    input: &mut I,
    out: &mut O,
) -> Result<String, Fail> {
    let alloc = rt.alloc();
    let args = words(alloc, list)?;
    let mut err = Vec::new(alloc);
    let status = YamlCheck::run(rt, alloc, args.as_slice(), input, out, &mut err);
    let said = String::from_utf8_lossy(alloc, err.as_slice())?;
    Ok(format!(in alloc; "{said}{status}")?)
}

#[test]
fn inputs_that_fail_are_told(rt: HostRuntime) -> Result<(), Fail> {
    let mut input = Failing(ErrorKind::PermissionDenied);
    let mut out = Vec::new(rt.alloc());
    assert_eq!(rt;
        told_of(&rt, &["-"], &mut input, &mut out)?.as_str(),
        "yamlcheck: cannot read -: it is not permitted\n1"
    );
    let mut input = Failing(ErrorKind::OutOfMemory);
    assert_eq!(rt;
        told_of(&rt, &[], &mut input, &mut out)?.as_str(),
        "yamlcheck: out of memory\n1"
    );
    assert!(rt; out.is_empty());
    Ok(())
}

// A pipe that is closed ends the program without a word.
#[test]
fn outputs_that_fail_are_told(rt: HostRuntime) -> Result<(), Fail> {
    let mut input: &[u8] = b"[";
    let mut out = Failing(ErrorKind::BrokenPipe);
    assert_eq!(rt;
        told_of(&rt, &["-", "no/such/file"], &mut input, &mut out)?.as_str(),
        "1"
    );
    assert_eq!(rt;
        told_of(&rt, &["--help"], &mut input, &mut out)?.as_str(),
        "1"
    );
    let mut out = Failing(ErrorKind::StorageFull);
    assert_eq!(rt;
        told_of(&rt, &["-"], &mut input, &mut out)?.as_str(),
        "yamlcheck: cannot write\n1"
    );
    Ok(())
}

// 300 levels: more than the limit, and no more than `--no-limits` allows.
#[test]
fn limits_can_be_lifted(rt: HostRuntime) -> Result<(), Fail> {
    let alloc = rt.alloc();
    let text = "- ".repeat(alloc, 300)?;
    let limited = ran(&rt, &[], text.as_str().as_bytes())?;
    assert!(rt;
        limited.starts_with("-:1:513: too many levels\n"),
        "{limited}"
    );
    let args = words(alloc, &["--no-limits"])?;
    let lifted = ran(&rt, args.as_slice(), text.as_str().as_bytes())?;
    assert_eq!(rt; lifted.as_str(), "0");
    Ok(())
}
