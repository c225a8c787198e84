//! Shows pages: the title and the tags of their front matter, and how many lines come after it.
#![tactic(auto)]

use std::alloc::{AllocError, Global};
use std::{env, fs, io};
use thiserror::Error;
use yaml_paths::{ReadError, Reason, Step, read_list, read_or};
use yaml_rust2::{ScanError, Yaml, YamlLoader};

const TITLE: &[Step<'static>] = &[Step::Key("title")];

const TAGS: &[Step<'static>] = &[Step::Key("tags")];

#[derive(Debug, Drop, Error)]
enum Refused {
    #[error("no front matter between two lines ---")]
    NoFront,
    #[error(transparent)]
    Scan(#[from] ScanError),
    #[error("{0}")]
    Setting(String),
    #[error(transparent)]
    Memory(#[from] AllocError),
}

fn main(rt: HostRuntime) -> io::Result<()> {
    for path in env::args(&rt)?.skip(1) {
        let page = fs::read_to_string(&rt, path.as_str())?;
        match shown(rt.alloc(), page.as_str()) {
            Ok(shown) => println!(rt; "{path}: {shown}")?,
            Err(refused) => println!(rt; "{path}: {refused}")?,
        }
    }
    Ok(())
}

fn shown(alloc: Global, page: &str) -> Result<String, Refused> {
    let Some((front, body)) = split(page) else {
        return Err(Refused::NoFront);
    };
    let documents = YamlLoader::load_from_str(alloc, front)?;
    let Some(settings) = documents.first() else {
        return Err(Refused::NoFront);
    };
    let title = match read_or(settings, TITLE, "untitled") {
        Ok(title) => title,
        Err(error) => return Err(told(alloc, &error)),
    };
    let tags = tags(alloc, settings)?;
    let lines = body.lines().count();
    Ok(format!(in alloc; "{title}\n  tags: {tags}\n  lines: {lines}")?)
}

// The front matter and the body, in a page with LF. The first line `---` stays, so that a fault has the page's line.
fn split(page: &str) -> Option<(&str, &str)> {
    if page.starts_with("---\n") {
        page.split_once("\n---\n")
    } else {
        None
    }
}

// The tags with commas between them, or `none`.
fn tags(alloc: Global, settings: &Yaml) -> Result<String, Refused> {
    match read_list::<&str>(alloc, settings, TAGS) {
        Ok(tags) => Ok(tags.as_slice().join(alloc, ", ")?),
        Err(error) => match error.reason {
            Reason::Missing => Ok(String::from_str(alloc, "none")?),
            _ => Err(told(alloc, &error)),
        },
    }
}

fn told(alloc: Global, error: &ReadError<'_>) -> Refused {
    match format!(in alloc; "{error}") {
        Ok(text) => Refused::Setting(text),
        Err(refusal) => Refused::Memory(refusal),
    }
}
