//! A server's settings, read with their types. A default stands for what is missing; what is of another kind is shown with its line.

ghost use Rattle.std.specs.Prelude.{IfOk};
ghost use Rattle.uses.specs.Servers.{IsServerOf};
ghost use Rattle.yaml_loader.specs.MarkedNode.{tree_of};
ghost use Rattle.yaml_paths.specs.Optional.{IsReadOr};
ghost use Rattle.yaml_paths.specs.Path.{steps_of};

use std::alloc::{AllocError, Global};
use thiserror::Error;
use yaml_loader::marked::{Marked, load_marked};
use yaml_paths::{FromYaml, ReadError, Step, marked};
use yaml_rust2::ScanError;
use yaml_tokens::Excerpt;

#[cfg(test)]
mod tests;

/// Where a server listens.
#[derive(Debug, Drop)]
pub struct Server {
    /// Its name.
    pub host: String,
    /// Its port.
    pub port: i64,
    /// Whether it is reached by TLS.
    pub tls: bool,
}

/// Why settings were refused.
#[derive(Debug, Drop, Error)]
pub enum Refused {
    /// The text has a fault.
    #[error(transparent)]
    Scan(#[from] ScanError),
    /// There is no document.
    #[error("the file is empty")]
    Empty,
    /// The settings were not read.
    #[error(transparent)]
    Settings(#[from] Unread),
}

/// Why settings were not read. A type of its own, without a [`ScanError`], so that the proof of `setting` is made.
#[derive(Debug, Drop, Error)]
pub enum Unread {
    /// A node is of another kind. The text says so, and shows its line.
    #[error("{0}")]
    Setting(String),
    /// Memory was refused.
    #[error(transparent)]
    Memory(#[from] AllocError),
}

const HOST: &[Step<'static>] = &[Step::Key("server"), Step::Key("host")];

const PORT: &[Step<'static>] = &[Step::Key("server"), Step::Key("port")];

const TLS: &[Step<'static>] = &[Step::Key("server"), Step::Key("tls")];

/// The server of a text's first document.
pub fn load_server(alloc: Global, text: &str) -> Result<Server, Refused> {
    let documents = load_marked(alloc, text)?;
    match documents.first() {
        Some(settings) => Ok(read_server(alloc, text, settings)?),
        None => Err(Refused::Empty),
    }
}

/// The server of settings that were loaded from this text.
pub fn read_server(alloc: Global, text: &str, settings: Marked<'_>) -> Result<Server, Unread>
    ensures { IfOk result (IsServerOf (tree_of settings.entry)) }
{
    let name = setting(alloc, text, settings, HOST, "localhost")?;
    let port = setting(alloc, text, settings, PORT, 8080)?;
    let tls = setting(alloc, text, settings, TLS, false)?;
    let host = String::from_str(alloc, name)?;
    Ok(Server { host, port, tls })
}

// The value at a path, or this one if it is missing.
fn setting<'a, T: FromYaml<'a>>(
    alloc: Global,
    text: &str,
    settings: Marked<'a>,
    path: &[Step<'_>],
    default: T,
) -> Result<T, Unread>
    ensures { IfOk result (IsReadOr default T.tree (steps_of path.now) (tree_of settings.entry)) }
{
    match marked::read_or(settings, path, default) {
        Ok(value) => Ok(value),
        Err(error) => Err(shown(alloc, text, &error)),
    }
}

// The error, and below it its line of the text with a caret.
fn shown(alloc: Global, text: &str, error: &ReadError<'_>) -> Unread {
    let said = match error.position {
        Some(position) => {
            let excerpt = Excerpt::at(text, position);
            format!(in alloc; "{error}\n{excerpt}")
        }
        None => format!(in alloc; "{error}"),
    };
    match said {
        Ok(said) => Unread::Setting(said),
        Err(refusal) => Unread::Memory(refusal),
    }
}
