//! The bytes that separate, begin and continue words.
ghost use Rattle.std.specs.Prelude.{◌≡◌};
ghost use Rattle.std.specs.Char.{to_ascii_lowercase};
ghost use Rattle.pddl_text.specs.Bytes.{is_blank, is_name_start, is_space, is_word_byte, kind};

/// What a byte begins outside words and comments.
#[derive(Clone, Copy)]
pub enum ByteKind {
    White,
    Semicolon,
    Opening,
    Closing,
    Letter,
    Stray,
}

/// Whether a word may have this byte.
pub fn is_word_byte(byte: u8) -> bool
    ensures { result ≡ is_word_byte byte }
{
    32 < byte && byte < 127 && !(byte == b'(' || byte == b')' || byte == b';')
}

pub fn kind_of(byte: u8) -> ByteKind
    ensures { result ≡ kind byte }
{
    if byte == b' ' || byte == b'\t' || byte == b'\r' || byte == b'\n' {
        ByteKind::White
    } else if byte == b';' {
        ByteKind::Semicolon
    } else if byte == b'(' {
        ByteKind::Opening
    } else if byte == b')' {
        ByteKind::Closing
    } else if is_word_byte(byte) {
        ByteKind::Letter
    } else {
        ByteKind::Stray
    }
}

/// A byte of a word as a letter, in lower case.
pub fn letter_of(byte: u8) -> char
    ensures { result ≡ to_ascii_lowercase byte }
{
    byte.to_ascii_lowercase() as char
}

/// Whether a byte is dropped at both ends of a plan's line.
pub fn is_blank(byte: u8) -> bool
    ensures { result ≡ is_blank byte }
{
    byte == b' ' || byte == b'\t' || byte == b'\r'
}

/// Whether a byte separates the names of a plan's line.
pub fn is_space(byte: u8) -> bool
    ensures { result ≡ is_space byte }
{
    byte == b' ' || byte == b'\t'
}

/// Whether a name may begin with this byte.
pub fn is_name_start(byte: u8) -> bool
    ensures { result ≡ is_name_start byte }
{
    b'A' <= byte && byte <= b'Z'
        || b'a' <= byte && byte <= b'z'
        || b'0' <= byte && byte <= b'9'
        || byte == b'_'
}
