//! Classes of characters (YAML 1.2, chapter 5). NUL stands for the end of the text.
ghost use Rattle.std.specs.Prelude.{◌≡◌, ◌≢◌, ◌<◌, true, Some, None};
ghost use Rattle.std.specs.Char.{digit_value};
ghost use Rattle.yaml_chars.specs.Class.{is_break, is_blank, is_breakz, is_blank_or_breakz, is_flow, is_digit, is_alphanumeric, is_alpha, is_hex, is_uri_mark, is_uri, is_tag, is_anchor, is_literal_character};

/// LF or CR.
#[tactic(auto, unfolding(crate::specs::Class::is_break))]
pub fn is_break(c: char) -> bool
    ensures value { result ≡ is_break c }
    ensures some { result ≡ true → c ≢ 0 }
{
    c == '\n' || c == '\r'
}

/// A space or a TAB.
#[tactic(auto, unfolding(crate::specs::Class::is_blank))]
pub fn is_blank(c: char) -> bool
    ensures value { result ≡ is_blank c }
    ensures some { result ≡ true → c ≢ 0 }
{
    c == ' ' || c == '\t'
}

/// A break, or the end.
pub fn is_breakz(c: char) -> bool
    ensures { result ≡ is_breakz c }
{
    is_break(c) || c == '\0'
}

/// A blank, a break, or the end.
pub fn is_blank_or_breakz(c: char) -> bool
    ensures { result ≡ is_blank_or_breakz c }
{
    is_blank(c) || is_breakz(c)
}

/// One of `,`, `[`, `]`, `{` and `}`.
#[tactic(auto, unfolding(crate::specs::Class::is_flow))]
pub fn is_flow(c: char) -> bool
    ensures value { result ≡ is_flow c }
    ensures some { result ≡ true → c ≢ 0 }
{
    matches!(c, ',' | '[' | ']' | '{' | '}')
}

/// A decimal digit.
#[tactic(auto, unfolding(crate::specs::Class::is_digit))]
pub fn is_digit(c: char) -> bool
    ensures value { result ≡ is_digit c }
    ensures some { result ≡ true → c ≢ 0 }
{
    matches!(c, '0'..='9')
}

/// An ASCII letter or digit.
#[tactic(auto, unfolding(crate::specs::Class::is_alphanumeric))]
pub fn is_alphanumeric(c: char) -> bool
    ensures value { result ≡ is_alphanumeric c }
    ensures some { result ≡ true → c ≢ 0 }
{
    matches!(c, '0'..='9' | 'A'..='Z' | 'a'..='z')
}

/// An ASCII letter or digit, `_` or `-`.
#[tactic(auto, unfolding(crate::specs::Class::is_alpha))]
pub fn is_alpha(c: char) -> bool
    ensures value { result ≡ is_alpha c }
    ensures some { result ≡ true → c ≢ 0 }
{
    is_alphanumeric(c) || c == '_' || c == '-'
}

/// A hexadecimal digit.
#[tactic(auto, unfolding(crate::specs::Class::is_hex))]
pub fn is_hex(c: char) -> bool
    ensures value { result ≡ is_hex c }
    ensures some { result ≡ true → c ≢ 0 }
{
    matches!(c, '0'..='9' | 'A'..='F' | 'a'..='f')
}

/// The value of a hexadecimal digit.
#[tactic(auto, unfolding(crate::specs::Class::is_hex))]
pub fn hex_value(c: char) -> u32
    requires { is_hex c ≡ true }
    ensures value { result ≡ digit_value c }
    ensures small { result < 16 }
{
    match c {
        '0'..='9' => c as u32 - '0' as u32,
        'a'..='f' => c as u32 - 'a' as u32 + 10,
        'A'..='F' => c as u32 - 'A' as u32 + 10,
        _ => unreachable!(),
    }
}

#[tactic(auto, unfolding(crate::specs::Class::is_uri_mark))]
fn is_uri_mark(c: char) -> bool
    ensures value { result ≡ is_uri_mark c }
    ensures some { result ≡ true → c ≢ 0 }
{
    matches!(
        c,
        '#' | ';'
            | '/'
            | '?'
            | ':'
            | '@'
            | '&'
            | '='
            | '+'
            | '$'
            | ','
            | '_'
            | '.'
            | '!'
            | '~'
            | '*'
            | '\''
            | '('
            | ')'
            | '['
            | ']'
            | '%'
    )
}

/// A character of a URI (YAML 1.2, section 5.6).
#[tactic(auto, unfolding(crate::specs::Class::is_uri))]
pub fn is_uri(c: char) -> bool
    ensures value { result ≡ is_uri c }
    ensures some { result ≡ true → c ≢ 0 }
{
    is_alphanumeric(c) || c == '-' || is_uri_mark(c)
}

/// A character of a tag's suffix: a URI character, but for the flow indicators and `!`.
#[tactic(auto, unfolding(crate::specs::Class::is_tag))]
pub fn is_tag(c: char) -> bool
    ensures value { result ≡ is_tag c }
    ensures some { result ≡ true → c ≢ 0 }
{
    is_uri(c) && !is_flow(c) && c != '!'
}

/// A character of an anchor's name (YAML 1.2, section 6.9.2).
#[tactic(auto, unfolding(crate::specs::Class::is_anchor))]
pub fn is_anchor(c: char) -> bool
    ensures value { result ≡ is_anchor c }
    ensures some { result ≡ true → c ≢ 0 }
{
    !is_blank_or_breakz(c) && c != '\u{FEFF}' && !is_flow(c)
}

/// A character that `dump` writes in a literal block.
#[tactic(auto, unfolding(crate::specs::Class::is_literal_character))]
pub fn is_literal_character(c: char) -> bool
    ensures { result ≡ is_literal_character c }
{
    matches!(
        c,
        '\t' | '\n' | ' '..='~' | '\u{85}' | '\u{A0}'..='\u{D7FF}' | '\u{10000}'..='\u{10FFFF}'
    ) || (matches!(c, '\u{E000}'..='\u{FFFD}') && c != '\u{FEFF}')
}
