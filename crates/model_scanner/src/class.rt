ghost use Rattle.std.specs.Prelude.{◌≡◌};
ghost use Rattle.model_scanner.specs.Class.{class_of};

/// The characters by which the scanner tells tokens apart (YAML 1.2, chapter 5).
#[derive(Clone, Copy, PartialEq, Eq)]
pub enum Class {
    /// NUL, which stands for the end of the text.
    Nul,
    /// U+0020.
    Space,
    /// U+0009.
    Tab,
    /// U+000A.
    LineFeed,
    /// U+000D.
    CarriageReturn,
    /// `#`.
    Hash,
    /// `-`.
    Dash,
    /// `?`.
    Question,
    /// `:`.
    Colon,
    /// `,`.
    Comma,
    /// `[`.
    OpenBracket,
    /// `]`.
    CloseBracket,
    /// `{`.
    OpenBrace,
    /// `}`.
    CloseBrace,
    /// `*`.
    Asterisk,
    /// `&`.
    Ampersand,
    /// `!`.
    Exclamation,
    /// `|`.
    Bar,
    /// `>`.
    Greater,
    /// `'`.
    SingleQuote,
    /// `"`.
    DoubleQuote,
    /// `%`.
    Percent,
    /// `@`.
    AtSign,
    /// A grave accent.
    Backtick,
    /// Any other character.
    Other,
}

/// The class of a character.
#[tactic(auto, unfolding(crate::specs::Class::class_of))]
pub fn class_of(c: char) -> Class
    ensures { result ≡ class_of c }
{
    match c {
        '\0' => Class::Nul,
        ' ' => Class::Space,
        '\t' => Class::Tab,
        '\n' => Class::LineFeed,
        '\r' => Class::CarriageReturn,
        '#' => Class::Hash,
        '-' => Class::Dash,
        '?' => Class::Question,
        ':' => Class::Colon,
        ',' => Class::Comma,
        '[' => Class::OpenBracket,
        ']' => Class::CloseBracket,
        '{' => Class::OpenBrace,
        '}' => Class::CloseBrace,
        '*' => Class::Asterisk,
        '&' => Class::Ampersand,
        '!' => Class::Exclamation,
        '|' => Class::Bar,
        '>' => Class::Greater,
        '\'' => Class::SingleQuote,
        '"' => Class::DoubleQuote,
        '%' => Class::Percent,
        '@' => Class::AtSign,
        '`' => Class::Backtick,
        _ => Class::Other,
    }
}
