//! Typed reads whose errors are handed on or told: an error borrows the path that was asked for.

ghost use Rattle.std.specs.Prelude.{pos, IfOk, IfErr};
ghost use Rattle.uses.specs.Servers.{port_path};
ghost use Rattle.yaml_paths.specs.Explained.{ExplainsOther};
ghost use Rattle.yaml_paths.specs.Optional.{IsRead, IsReadOr};
ghost use Rattle.yaml_paths.specs.Path.{steps_of};
ghost use Rattle.yaml_paths.specs.declared.kind.Kind.TheVariants as kind;
ghost use Rattle.yaml_rust2.specs.Tree.{integer};
ghost use Rattle.yaml_rust2.specs.View.{view};

use std::alloc::{AllocError, Global};
use thiserror::Error;
use yaml_paths::{ReadError, Step, read_optional, read_or};
use yaml_rust2::Yaml;

#[cfg(test)]
mod tests;

const HOST: &[Step<'static>] = &[Step::Key("server"), Step::Key("host")];

const PORT: &[Step<'static>] = &[Step::Key("server"), Step::Key("port")];

/// The server's port, or 8080. The path is a constant, so the error outlives the settings.
pub fn port(settings: &Yaml) -> Result<i64, ReadError<'static>>
    ensures value { IfOk result (IsReadOr (pos 8080) integer port_path (view settings.now)) }
    ensures err { IfErr result (ExplainsOther kind.Integer port_path (view settings.now)) }
{
    read_or(settings, PORT, 8080)
}

/// The number at a path that the caller has, if there is a node. The error has the path's lifetime.
pub fn number_at<'p>(settings: &Yaml, path: &'p [Step<'p>]) -> Result<Option<i64>, ReadError<'p>>
    ensures value { IfOk result (IsRead integer (steps_of path.now) (view settings.now)) }
    ensures err { IfErr result (ExplainsOther kind.Integer (steps_of path.now) (view settings.now)) }
{
    read_optional(settings, path)
}

/// The server's name, or `localhost`, and its port, or 8080.
pub fn address(settings: &Yaml) -> Result<(&str, i64), ReadError<'static>> {
    let host = match read_or(settings, HOST, "localhost") {
        Ok(host) => host,
        Err(error) => return Err(error),
    };
    match read_or(settings, PORT, 8080) {
        Ok(port) => Ok((host, port)),
        Err(error) => Err(error),
    }
}

/// Why a port was not read.
#[derive(Debug, Drop, Error)]
pub enum NoPort {
    /// Memory was refused.
    #[error(transparent)]
    Memory(#[from] AllocError),
    /// A node is of another kind.
    #[error("settings: {0}")]
    Said(String),
}

/// The server's port, or 8080. What was wrong is kept as a text.
pub fn port_or_text(alloc: Global, settings: &Yaml) -> Result<i64, NoPort> {
    let port = read_or(settings, PORT, 8080);
    Ok(*port.as_ref().map_err(|error| said(alloc, error))?)
}

// The error as a text.
fn said(alloc: Global, error: &ReadError<'_>) -> NoPort {
    match format!(in alloc; "{error}") {
        Ok(text) => NoPort::Said(text),
        Err(refusal) => NoPort::Memory(refusal),
    }
}
