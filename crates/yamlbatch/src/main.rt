//! Prints what this library makes of each file that a line of standard input names, for a comparison with another
//! program's lines: `tokens`, `events`, `debug` (the trees), `dump [--spread] [--multiline]`, and of bytes
//! `decode ignore|strict|replace|call|stop`.
#![tactic(auto)]

mod decoded;
mod job;
mod trees;

use crate::decoded::decoded;
use crate::job::{Job, job_of};
use crate::trees::{dumps, trees};
use std::alloc::Global;
use std::io::{BufRead, BufReader, BufWriter, Write};
use std::{env, fs, io};
use yaml_parser::{Event, Parser};
use yaml_programs::write_event;
use yaml_scanner::Scanner;

fn print_tokens<W: Write>(alloc: Global, out: &mut W, text: &str) -> io::Result<()> {
    let mut scanner = Scanner::new(alloc, text.chars());
    for _ in 0..u64::MAX {
        match scanner.next_token() {
            Ok(Some(token)) => writeln!(out, "{token:?}")?,
            Ok(None) => return Ok(()),
            Err(fault) => {
                writeln!(out, "ERR {fault}")?;
                return Ok(());
            }
        }
    }
    Ok(())
}

fn print_events<W: Write>(alloc: Global, out: &mut W, text: &str) -> io::Result<()> {
    let mut parser = Parser::new_from_str(alloc, text);
    for _ in 0..u64::MAX {
        match parser.next_token() {
            Ok((event, mark)) => {
                write_event(out, &event, mark)?;
                if let Event::StreamEnd = event {
                    return Ok(());
                }
            }
            Err(fault) => {
                writeln!(out, "ERR {fault}")?;
                return Ok(());
            }
        }
    }
    Ok(())
}

fn main(rt: HostRuntime) -> io::Result<()> {
    let alloc = rt.alloc();
    let mut words = Vec::new(alloc);
    for word in env::args(&rt)?.skip(1) {
        words.push(word)?;
    }
    let job = job_of(words.as_slice());
    let mut out = BufWriter::new(alloc, io::writer(&rt))?;
    for line in BufReader::new(alloc, rt.reader())?.lines(alloc) {
        let path = line?;
        writeln!(out, "== {path}")?;
        let bytes = fs::read(&rt, path.as_str())?;
        if let Job::Decode(trap) = job {
            out.write_all(decoded(alloc, bytes.as_slice(), trap)?.as_bytes())?;
        } else {
            let text = String::from_utf8(bytes).map_err(|_| io::ErrorKind::InvalidData)?;
            match job {
                Job::Events => print_events(alloc, &mut out, text.as_str())?,
                Job::Trees => out.write_all(trees(alloc, text.as_str())?.as_bytes())?,
                Job::Dump(settings) => {
                    out.write_all(dumps(alloc, text.as_str(), settings)?.as_bytes())?;
                }
                _ => print_tokens(alloc, &mut out, text.as_str())?,
            }
        }
    }
    out.flush()
}
