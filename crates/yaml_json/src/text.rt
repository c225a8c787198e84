//! JSON texts.
ghost use Rattle.std.specs.Prelude.{IfOk, IfSome, chars};
ghost use Rattle.defs_layout.specs.Json.{IsJsonText};
ghost use Rattle.yaml_tree.specs.View.{view};
ghost use Rattle.yaml_json.specs.Reads.{IsWholeValue};

use crate::cursor::Cursor;
use crate::likely::is_likely_json;
use crate::reader::read_value;
use crate::stop::{Refused, Stop};
use std::alloc::Global;
use yaml_tree::Yaml;

/// The tree of a JSON text whose value is an array or an object. `None` says nothing of the text: it is given where the text begins with
/// something else, or with more white space than is passed over, and where the text is found to be none of the class.
///
/// # Errors
///
/// Memory was refused, and how far the text was read until then.
#[inline(always)]
pub fn read_json(alloc: Global, text: &str) -> Result<Option<Yaml>, Refused>
    ensures { IfOk result (λ read. IfSome read (λ tree. IsJsonText (view tree) (chars text.now))) }
{
    let mut cursor = Cursor::new(text);
    cursor.skip_first_gap();
    if !matches!(cursor.peek(), b'[' | b'{') || !is_likely_json(cursor.rest().as_bytes()) {
        return Ok(None);
    }
    match read_whole(alloc, &mut cursor) {
        Ok(tree) => Ok(Some(tree)),
        Err(Stop::Foreign) => Ok(None),
        Err(Stop::OutOfMemory) => Err(Refused {
            read: text.len().saturating_sub(cursor.rest().len()),
        }),
    }
}

// The value that stands here, behind which nothing but white space stands.
#[inline(never)]
fn read_whole(alloc: Global, cursor: &mut Cursor<'_>) -> Result<Yaml, Stop>
    ensures { IfOk result (λ tree. IsWholeValue (view tree) cursor.old) }
{
    let tree = read_value(alloc, cursor)?;
    cursor.skip_gap();
    if !cursor.is_at_end() {
        return Err(Stop::Foreign);
    }
    Ok(tree)
}
