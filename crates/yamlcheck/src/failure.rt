use std::io;
use std::io::Write;
use yaml_programs::Tell;

/// What only this program meets.
#[derive(Drop)]
pub enum Trouble {
    /// The decoder's message for bytes that are no text.
    NoText(String),
}

pub type Failure<'a> = yaml_programs::Failure<'a, Trouble>;

impl Tell for Trouble {
    fn tell<W: Write>(&self, path: &str, err: &mut W) -> io::Result<()> {
        match self {
            Trouble::NoText(message) => writeln!(err, "yamlcheck: {path}: {message}"),
        }
    }
}
