//! Classes of bytes.
ghost use Rattle.std.specs.Prelude.{◌≡◌};
ghost use Rattle.dbc_values.specs.Lexical.{is_digit, is_letter, is_word_byte, is_mark};

// The letter of each class. Those of a word's bytes come first, so that one comparison finds them.
const LETTER: u8 = b'a';

const DIGIT: u8 = b'd';

const MARK: u8 = b'm';

// The class of each byte: `a` is a letter or an underscore, `d` a digit, `m` a mark and `x` any other byte.
static CLASSES: [u8; 256] = *b"\
    xxxxxxxxxxxxxxxxxxxxxxxxxxxxxxxx\
    xxxxxxxxmmxmmmxxddddddddddmmxxxx\
    maaaaaaaaaaaaaaaaaaaaaaaaaamxmxa\
    xaaaaaaaaaaaaaaaaaaaaaaaaaaxmxxx\
    xxxxxxxxxxxxxxxxxxxxxxxxxxxxxxxx\
    xxxxxxxxxxxxxxxxxxxxxxxxxxxxxxxx\
    xxxxxxxxxxxxxxxxxxxxxxxxxxxxxxxx\
    xxxxxxxxxxxxxxxxxxxxxxxxxxxxxxxx";

/// Whether the byte is an ASCII letter or an underscore.
pub fn is_letter(b: u8) -> bool
    ensures { result ≡ is_letter b }
{
    CLASSES[b as usize] == LETTER
}

/// Whether the byte is an ASCII letter, a digit or an underscore.
pub fn is_word_byte(b: u8) -> bool
    ensures { result ≡ is_word_byte b }
{
    CLASSES[b as usize] <= DIGIT
}

/// Whether the byte is a digit.
pub fn is_digit(b: u8) -> bool
    ensures { result ≡ is_digit b }
{
    CLASSES[b as usize] == DIGIT
}

/// Whether the byte is one of `:`, `;`, `|`, `@`, `(`, `)`, `[`, `]`, `,`, `+` and `-`.
pub fn is_mark(b: u8) -> bool
    ensures { result ≡ is_mark b }
{
    CLASSES[b as usize] == MARK
}
