//! JSON values without parts.
ghost use Rattle.std.specs.Prelude.{◌≡◌, ◌<◌, IfOk};
ghost use Rattle.yaml_tree.specs.View.{view};
ghost use Rattle.yaml_json.specs.Reads.{IsValue};

use crate::cursor::Cursor;
use crate::stop::Stop;
use crate::string::read_string;
use std::alloc::Global;
use yaml_tree::Yaml;

/// The string, the number or the word that stands here.
#[inline(always)]
#[tactic(auto, using(crate::proofs::StringLemmas::string_value))]
pub(crate) fn read_scalar(alloc: Global, cursor: &mut Cursor<'_>) -> Result<Yaml, Stop>
    ensures { IfOk result (λ value. IsValue (view value) 0 cursor.old cursor.new) }
{
    if cursor.take(b'"') {
        let string = read_string(alloc, cursor)?;
        return Ok(Yaml::String(string));
    }
    if cursor.peek() <= b'9' {
        return read_number(alloc, cursor);
    }
    read_word(cursor)
}

#[tactic(auto, using(crate::proofs::ReadNumberLemmas::number_value))]
fn read_number(alloc: Global, cursor: &mut Cursor<'_>) -> Result<Yaml, Stop>
    ensures { IfOk result (λ value. IsValue (view value) 0 cursor.old cursor.new) }
{
    let Some(text) = cursor.take_number() else {
        return Err(Stop::Foreign);
    };
    let number = Yaml::from_str(alloc, text)?;
    Ok(number)
}

fn read_word(cursor: &mut Cursor<'_>) -> Result<Yaml, Stop>
    ensures { IfOk result (λ value. IsValue (view value) 0 cursor.old cursor.new) }
{
    if cursor.take_word("true") {
        return Ok(Yaml::Boolean(true));
    }
    if cursor.take_word("false") {
        return Ok(Yaml::Boolean(false));
    }
    if cursor.take_word("null") {
        return Ok(Yaml::Null);
    }
    Err(Stop::Foreign)
}
