//! One document within limits, from a parser that stands between documents.
ghost use Rattle.std.specs.Prelude.{◌≡◌};
ghost use Rattle.yaml_parser.specs.Parsed.{parsed};
ghost use Rattle.yaml_loader.specs.OneDocument.{IsBetween};
ghost use Rattle.yaml_loader.specs.LimitedDocument.{ReadsWithin};

use crate::YamlLoader;
use crate::documents::{Halt, take_document};
use crate::guard::Guard;
use crate::limits::Limits;
use crate::limits_error::LimitsError;
use std::alloc::Global;
use yaml_parser::Parser;
use yaml_tree::Yaml;

/// Reads the next document within limits, or to the end of the stream. Loader and count are new ones.
pub fn read_document<T: Iterator<Item = char>>(
    alloc: Global,
    parser: &mut Parser<T>,
    limits: Limits,
) -> Result<Option<Yaml>, LimitsError>
    ensures reads { IsBetween (parsed parser.old) → ReadsWithin limits (parsed parser.old) result (parsed parser.new) }
    ensures start { parser.new.start ≡ parser.old.start }
{
    let loader = YamlLoader::default(alloc);
    let mut guard = Guard::new(alloc, loader, limits);
    match take_document(parser, &mut guard) {
        Ok(()) => {}
        Err(Halt::Parser(fault)) => {
            if let Some(mark) = limits.excess(parser.backlog()) {
                return Err(LimitsError::Size(mark));
            }
            return Err(LimitsError::Scan(fault));
        }
        Err(Halt::Receiver(fault)) => return Err(guard.error(fault)),
    }
    let mut documents = guard.receiver.into_documents()?;
    Ok(documents.pop())
}
