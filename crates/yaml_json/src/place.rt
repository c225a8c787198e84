//! Places in a text as positions.
ghost use Rattle.std.specs.Prelude.{◌^◌, ◌<◌, OnSome};
ghost use Rattle.std.specs.Iterator.{IsFinite, size};

use yaml_chars::{Characters, Marker, TextInMemory, Window};

/// The position behind so many bytes of a text, or behind the text where it has fewer. It is counted as a window counts: in characters,
/// and CR LF as one line break.
#[cold]
#[inline(never)]
pub fn position_behind(text: &str, bytes: usize) -> Marker {
    position_in(TextInMemory::new(text), bytes)
}

fn position_in<S: Characters>(source: S, bytes: usize) -> Marker
    requires can { S.can_next source }
    requires finite { IsFinite (S.remaining source) }
    requires few { size (S.remaining source) < 2 ^ 63 }
{
    let mut window = Window::new(source);
    let mut left = bytes;
    'characters: while left > 0 {
        let Some(character) = pass_one(&mut window) else {
            return window.mark();
        };
        left = left.saturating_sub(character.len_utf8());
    }
    window.mark()
}

// Steps over the next character, and gives it.
fn pass_one<S: Characters>(window: &mut Window<S>) -> Option<char>
    ensures { OnSome result (window.new.left < window.old.left) }
{
    window.lookahead(2);
    let character = window.ch();
    if character == '\0' {
        return None;
    }
    if matches!(character, '\n' | '\r') && !window.at_cr_lf() {
        window.skip_break();
    } else {
        window.skip();
    }
    Some(character)
}
