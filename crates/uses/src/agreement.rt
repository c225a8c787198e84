//! Two programs load the same text, each in its own way: they agree, by the library's public contracts alone.

ghost use Rattle.std.specs.Prelude.{false, chars};
ghost use Rattle.yaml_rust2.specs.Agreement.{IsOfRow, Agree, SayTheSame};
ghost use Rattle.yaml_rust2.specs.Text.{up_to_nul};
ghost use Rattle.yaml_rust2.specs.TextLoads.{LoadsText};

use std::alloc::Global;
use yaml_rust2::laws::{one_answer, one_list_of_documents};
use yaml_rust2::{ScanError, Yaml, YamlLoader};

#[cfg(test)]
mod tests;

/// The documents of a text, or why there are none.
pub type Answer = Result<Vec<Yaml>, ScanError>;

/// The answers of two programs about one text.
#[derive(Drop)]
pub struct Answers {
    /// By a load of the text.
    pub one: Answer,
    /// By a load of its characters, one after the other.
    pub other: Answer,
}

/// One program loads the text.
pub fn load_at_once(alloc: Global, text: &str) -> Answer
    ensures of_row { IsOfRow false (up_to_nul (chars text.now)) result }
    ensures reads { LoadsText false (up_to_nul (chars text.now)) result }
{
    YamlLoader::load_from_str(alloc, text)
}

/// Another program loads its characters, one after the other.
pub fn load_by_characters(alloc: Global, text: &str) -> Answer
    ensures of_row { IsOfRow false (up_to_nul (chars text.now)) result }
    ensures reads { LoadsText false (up_to_nul (chars text.now)) result }
{
    YamlLoader::load_from_iter(alloc, text.chars())
}

/// Loads a text both ways. The answers say the same, unless memory was refused: the same documents, or the same fault, or that the
/// same key comes twice.
pub fn load_both_ways(alloc: Global, text: &str) -> Answers
    ensures documents { Agree result.one result.other }
    ensures same { SayTheSame result.one result.other }
{
    one_list_of_documents();
    one_answer();
    Answers {
        one: load_at_once(alloc, text),
        other: load_by_characters(alloc, text),
    }
}
