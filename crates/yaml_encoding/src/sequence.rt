//! What an input begins with: a character or a malformation.
ghost use Rattle.std.specs.Prelude.{◌≡◌};
ghost use Rattle.std.specs.Char.{IsScalar};
ghost use Rattle.yaml_encoding.specs.Decoding.{means, malformed};
ghost use Rattle.yaml_encoding.specs.Front.{sequence_of};

/// What an input begins with.
#[derive(Clone, Copy)]
pub(crate) struct Sequence {
    /// How many bytes it takes, at least one.
    pub bytes: u8,
    /// The character that they encode; none for a malformation.
    pub character: Option<char>,
    /// For a malformation, how many bytes after it were looked at.
    pub ahead: u8,
}

impl Sequence {
    /// A character in so many bytes, by its code.
    pub fn means(bytes: u8, code: u32) -> Sequence
        requires { IsScalar code }
        ensures { sequence_of result ≡ means bytes code }
    {
        Sequence {
            bytes,
            character: char::from_u32(code),
            ahead: 0,
        }
    }

    /// A malformation of so many bytes, with so many more looked at.
    pub fn malformed(bytes: u8, ahead: u8) -> Sequence
        ensures { sequence_of result ≡ malformed bytes ahead }
    {
        Sequence {
            bytes,
            character: None,
            ahead,
        }
    }
}
