// Classes of bytes.
ghost use Rattle.std.specs.Prelude.{◌≡◌};
ghost use Rattle.mesh_words.specs.Class.{in_class};

// Classes of bytes. The last two are those of a word, and all but a line feed.
#[derive(Clone, Copy)]
pub enum Class {
    Space,
    CarriageReturn,
    LineFeed,
    Digit,
    Word,
    Line,
}

impl Class {
    // Whether the byte is of the class.
    pub fn contains(self, byte: u8) -> bool
        ensures { result ≡ in_class self byte }
    {
        match self {
            Class::Space => byte == b' ',
            Class::CarriageReturn => byte == b'\r',
            Class::LineFeed => byte == b'\n',
            Class::Digit => byte.is_ascii_digit(),
            Class::Word => byte != b' ' && byte != b'\r' && byte != b'\n',
            Class::Line => byte != b'\n',
        }
    }
}
