ghost use Rattle.std.specs.Prelude.{◌≡◌, bytes_eq};
ghost use Rattle.edge_base.specs.Token.{is_blank_byte, is_digit, is_name_start, is_name_byte, is_word_byte, is_reserved};
ghost use Rattle.expr_lexer.specs.Scan.{is_address_byte};

pub fn is_blank_byte(byte: u8) -> bool
    ensures { result ≡ is_blank_byte byte }
{
    byte == b' ' || byte == b'\t' || byte == b'\r' || byte == b'\n'
}

pub fn is_digit(byte: u8) -> bool
    ensures { result ≡ is_digit byte }
{
    b'0' <= byte && byte <= b'9'
}

/// A lower-case letter or `_`.
pub fn is_name_start(byte: u8) -> bool
    ensures { result ≡ is_name_start byte }
{
    b'a' <= byte && byte <= b'z' || byte == b'_'
}

/// A lower-case letter, a digit or `_`.
pub fn is_name_byte(byte: u8) -> bool
    ensures { result ≡ is_name_byte byte }
{
    is_name_start(byte) || is_digit(byte)
}

/// A letter, a digit or `_`.
pub fn is_word_byte(byte: u8) -> bool
    ensures { result ≡ is_word_byte byte }
{
    is_name_byte(byte) || b'A' <= byte && byte <= b'Z'
}

/// A byte that an address can hold.
pub fn is_address_byte(byte: u8) -> bool
    ensures { result ≡ is_address_byte byte }
{
    is_digit(byte)
        || b'a' <= byte && byte <= b'f'
        || b'A' <= byte && byte <= b'F'
        || byte == b':'
        || byte == b'.'
}

pub fn is_reserved(text: &[u8]) -> bool
    ensures { result ≡ is_reserved text.now }
{
    is_word(text, "not")
        || is_word(text, "and")
        || is_word(text, "xor")
        || is_word(text, "or")
        || is_word(text, "eq")
        || is_word(text, "ne")
        || is_word(text, "lt")
        || is_word(text, "le")
        || is_word(text, "gt")
        || is_word(text, "ge")
        || is_word(text, "contains")
        || is_word(text, "matches")
        || is_word(text, "in")
        || is_word(text, "wildcard")
        || is_word(text, "strict")
        || is_word(text, "true")
        || is_word(text, "false")
}

fn is_word(text: &[u8], word: &str) -> bool
    ensures { result ≡ bytes_eq text.now word.now }
{
    text == word.as_bytes()
}
