//! Prints a service's settings, or their defaults, from files of strangers. A value of another kind is told with its path.
#![tactic(auto)]

ghost use Rattle.std.specs.Prelude.{IfOk};
ghost use Rattle.yaml_paths.specs.Optional.{IsReadOr};
ghost use Rattle.yaml_paths.specs.Path.{steps_of};
ghost use Rattle.yaml_rust2.specs.View.{view};

use std::alloc::{AllocError, Global};
use std::{env, fs, io};
use thiserror::Error;
use yaml_loader::limits::{Limits, load_with_limits};
use yaml_paths::{FromYaml, ReadError, Step, read_optional, read_or};
use yaml_rust2::Yaml;

const HOST: &[Step<'static>] = &[Step::Key("server"), Step::Key("host")];

const PORT: &[Step<'static>] = &[Step::Key("server"), Step::Key("port")];

const TLS: &[Step<'static>] = &[Step::Key("server"), Step::Key("tls")];

const LOG: &[Step<'static>] = &[Step::Key("log"), Step::Key("file")];

#[derive(Debug, Drop, Error)]
enum Refused {
    #[error("{0}")]
    Setting(String),
    #[error(transparent)]
    Memory(#[from] AllocError),
}

fn main(rt: HostRuntime) -> io::Result<()> {
    for path in env::args(&rt)?.skip(1) {
        let text = fs::read_to_string(&rt, path.as_str())?;
        let text = text.as_str();
        match load_with_limits(rt.alloc(), text, Limits::for_text(text)) {
            Ok(documents) => match shown(rt.alloc(), documents.first().unwrap_or(&Yaml::Null)) {
                Ok(settings) => println!(rt; "{path}:\n{settings}")?,
                Err(refused) => println!(rt; "{path}: {refused}")?,
            },
            Err(error) => println!(rt; "{path}: {error}")?,
        }
    }
    Ok(())
}

// The settings, each in a line.
fn shown(alloc: Global, tree: &Yaml) -> Result<String, Refused> {
    let host = setting(alloc, tree, HOST, "localhost")?;
    let port = setting(alloc, tree, PORT, 8080)?;
    let tls = setting(alloc, tree, TLS, false)?;
    let log = match read_optional(tree, LOG) {
        Ok(Some(file)) => file,
        Ok(None) => "no file",
        Err(error) => return Err(told(alloc, &error)),
    };
    Ok(format!(in alloc; "  host: {host}\n  port: {port}\n  tls: {tls}\n  log: {log}")?)
}

// The value at a path, or this one if it is missing.
fn setting<'a, T: FromYaml<'a>>(
    alloc: Global,
    tree: &'a Yaml,
    path: &[Step<'_>],
    default: T,
) -> Result<T, Refused>
    ensures { IfOk result (IsReadOr default T.tree (steps_of path.now) (view tree.now)) }
{
    match read_or(tree, path, default) {
        Ok(value) => Ok(value),
        Err(error) => Err(told(alloc, &error)),
    }
}

fn told(alloc: Global, error: &ReadError<'_>) -> Refused {
    match format!(in alloc; "{error}") {
        Ok(text) => Refused::Setting(text),
        Err(refusal) => Refused::Memory(refusal),
    }
}
