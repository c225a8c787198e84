//! Lines of a text (YAML 1.2, section 5.4).
ghost use Rattle.std.specs.Prelude.{◌≡◌, ◌<◌, ◌++◌, [], ◌∷◌, chars, length, take, drop, MatchOption, ◌||◌};
ghost use Rattle.defs_text.specs.Classes.{is_break, is_nul};
ghost use Rattle.yaml_tokens.specs.Excerpt.{last_line};

// The first character of a text, and what stands after it.
pub(crate) fn first(text: &str) -> Option<(char, &str)>
    ensures { MatchOption result (chars text.now ≡ []) (λ x. (chars text.now ≡ x.0 ∷ chars x.1.now) × (length x.1.now < length text.now)) }
{
    let mut rest = text.chars();
    let c = rest.next()?;
    Some((c, rest.as_str()))
}

#[tactic(auto, unfolding(defs_text::specs::Classes::is_break))]
pub(crate) fn is_break(c: char) -> bool
    ensures { result ≡ is_break c }
{
    c == '\n' || c == '\r'
}

// A break, or the NUL with which a text ends.
#[tactic(auto, unfolding(defs_text::specs::Classes::is_nul))]
pub(crate) fn ends_line(c: char) -> bool
    ensures { result ≡ (is_break c || is_nul c) }
{
    is_break(c) || c == '\0'
}

// What stands after so many characters.
pub(crate) fn after(text: &str, count: usize) -> &str
    ensures { chars result.now ≡ drop count (chars text.now) }
{
    let (mut rest, mut left) = (text, count);
    'skipped: while left > 0 {
        let Some((_, after)) = first(rest) else {
            return rest;
        };
        (rest, left) = (after, left - 1);
    }
    rest
}

// The text from the start of the line in which its character `index` stands, and how many characters stand before that
// one on its line.
pub(crate) fn line_of(text: &str, index: usize) -> (&str, usize)
    ensures line { chars result.0.now ≡ last_line (take index (chars text.now)) ++ drop index (chars text.now) }
    ensures column { result.1 ≡ length (last_line (take index (chars text.now))) }
{
    let (mut line, mut column) = (text, 0);
    let (mut rest, mut left) = (text, index);
    'characters: while left > 0 {
        let Some((c, after)) = first(rest) else {
            return (line, column);
        };
        (rest, left) = (after, left - 1);
        if is_break(c) {
            (line, column) = (rest, 0);
        } else {
            column += 1;
        }
    }
    (line, column)
}
