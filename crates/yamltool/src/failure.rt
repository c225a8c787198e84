use std::io;
use std::io::Write;
use yaml_loader::limits::LimitsError;
use yaml_programs::Tell;

/// What only this program meets.
#[derive(Drop)]
pub enum Trouble {
    /// The file holds this number of documents, and one is needed.
    Documents(usize),
    /// The fault of a file's text, or a limit that it goes over.
    Fault(LimitsError),
}

pub type Failure<'a> = yaml_programs::Failure<'a, Trouble>;

impl Tell for Trouble {
    fn tell<W: Write>(&self, path: &str, err: &mut W) -> io::Result<()> {
        match self {
            Trouble::Documents(count) => {
                writeln!(err, "yamltool: {path} holds {count} documents")
            }
            Trouble::Fault(fault) => writeln!(err, "{fault}"),
        }
    }
}
