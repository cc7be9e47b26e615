//! Runs of bytes of one class, each found by a look into a table: most of a text is names, numbers and blanks.
ghost use Rattle.std.specs.Prelude.{◌≡◌};
ghost use Rattle.std.specs.List.{prefix_len};
ghost use Rattle.prv_lex.specs.Bytes.{is_blank as is_a_blank, is_letter as is_a_letter, is_word_byte as is_a_word_byte, is_in};

/// The bytes that a run may have.
#[derive(Clone, Copy)]
pub enum Class {
    /// Letters, digits and `_`.
    Word,
    /// Digits.
    Digit,
    /// All but LF.
    Line,
}

/// Whether each byte is a letter, a digit or `_`.
const WORD_BYTES: [bool; 256] = [
    false, false, false, false, false, false, false, false, false, false, false, false, false,
    false, false, false, false, false, false, false, false, false, false, false, false, false,
    false, false, false, false, false, false, false, false, false, false, false, false, false,
    false, false, false, false, false, false, false, false, false, true, true, true, true, true,
    true, true, true, true, true, false, false, false, false, false, false, false, true, true,
    true, true, true, true, true, true, true, true, true, true, true, true, true, true, true, true,
    true, true, true, true, true, true, true, true, false, false, false, false, true, false, true,
    true, true, true, true, true, true, true, true, true, true, true, true, true, true, true, true,
    true, true, true, true, true, true, true, true, true, false, false, false, false, false, false,
    false, false, false, false, false, false, false, false, false, false, false, false, false,
    false, false, false, false, false, false, false, false, false, false, false, false, false,
    false, false, false, false, false, false, false, false, false, false, false, false, false,
    false, false, false, false, false, false, false, false, false, false, false, false, false,
    false, false, false, false, false, false, false, false, false, false, false, false, false,
    false, false, false, false, false, false, false, false, false, false, false, false, false,
    false, false, false, false, false, false, false, false, false, false, false, false, false,
    false, false, false, false, false, false, false, false, false, false, false, false, false,
    false, false, false, false, false, false, false, false, false, false, false, false, false,
    false, false, false, false, false, false, false, false, false, false,
];

/// Whether a byte is a space, tab, CR or LF.
pub fn is_blank(b: u8) -> bool
    ensures { result ≡ is_a_blank b }
{
    b == b' ' || b == b'\t' || b == b'\r' || b == b'\n'
}

/// Whether a byte is a letter of ASCII or `_`.
pub fn is_letter(b: u8) -> bool
    ensures { result ≡ is_a_letter b }
{
    b.is_ascii_alphabetic() || b == b'_'
}

/// Whether a byte is a letter, a digit or `_`.
fn is_word_byte(b: u8) -> bool
    ensures { result ≡ is_a_word_byte b }
{
    WORD_BYTES[b as usize]
}

impl Class {
    /// Whether a byte is in the class.
    pub fn has(self, b: u8) -> bool
        ensures { result ≡ is_in self b }
    {
        match self {
            Class::Word => is_word_byte(b),
            Class::Digit => b.is_ascii_digit(),
            Class::Line => b != b'\n',
        }
    }
}

/// How many bytes at the front of a text are in the class.
pub fn run_len(text: &[u8], class: Class) -> usize
    ensures { result ≡ prefix_len (is_in class) text.now }
{
    for (i, b) in text.iter().enumerate() {
        if !class.has(*b) {
            return i;
        }
    }
    text.len()
}
