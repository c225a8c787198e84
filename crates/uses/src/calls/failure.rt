//! What may go wrong in the examples.
use std::alloc::AllocError;
use thiserror::Error;
use yaml_rust2::yaml::LoadError;
use yaml_rust2::{EmitError, ScanError};

/// Why an example ends early.
#[derive(Debug, Drop, Error)]
pub enum Failure {
    /// The text has a fault.
    #[error(transparent)]
    Scan(#[from] ScanError),
    /// The tree was not written.
    #[error(transparent)]
    Emit(#[from] EmitError),
    /// Memory was refused.
    #[error(transparent)]
    Memory(#[from] AllocError),
    /// The bytes were not loaded.
    #[error("these bytes are no YAML")]
    Bytes,
    /// The tree has another shape.
    #[error("this is no tree of services")]
    NoServices,
}

impl From<LoadError> for Failure {
    fn from(_: LoadError) -> Failure {
        Failure::Bytes
    }
}
