ghost use Rattle.std.specs.Prelude.{◌≡◌, ◌+◌, ◌<◌, [], ◌∷◌, ◌++◌, length, OnOk, OnErr};
ghost use Rattle.std.specs.Prelude.{decimal};
ghost use Rattle.std.specs.Io.{StartsWith};
ghost use Rattle.edge_base.specs.Printed.{is_printed_byte, hex_digit, escaped_byte, escaped, signed};

use crate::refusal::Memory;
use crate::text::Text;
use itoa::Buffer;
use std::alloc::Global;
use std::marker::Model;

/// A text that is being put together. Contracts see the bytes so far.
#[derive(Debug, Drop)]
pub struct TextBuilder {
    bytes: Vec<u8>,
}

impl Model for TextBuilder {
    ghost use Rattle.std.specs.Prelude.{List, ℕ};

    ghost Value = { List ℕ };

    ghost view = { λ builder. builder.bytes.items };
}

/// Whether a byte is printed as itself.
fn is_printed_byte(byte: u8) -> bool
    ensures { result ≡ is_printed_byte byte }
{
    32 < byte && byte < 127 && byte != b'%' && byte != b','
}

/// A digit in base 16, in upper case.
fn hex_digit(n: u8) -> u8
    requires { n < 16 }
    ensures { result ≡ hex_digit n }
{
    if n < 10 { b'0' + n } else { b'A' + (n - 10) }
}

impl TextBuilder {
    /// An empty text. Takes no memory.
    pub fn new(alloc: Global) -> TextBuilder
        ensures { result ≡ [] }
    {
        TextBuilder {
            bytes: Vec::new(alloc),
        }
    }

    /// Adds these bytes; a refusal adds nothing.
    pub fn push(&mut self, bytes: &[u8]) -> Result<(), Memory>
        ensures ok { OnOk result (self.new ≡ self.old ++ bytes.now) }
        ensures err { OnErr result (self.new ≡ self.old) }
    {
        self.bytes.extend_from_slice(bytes)?;
        Ok(())
    }

    /// A number in decimal; a refusal adds nothing.
    pub fn push_number(&mut self, n: u64) -> Result<(), Memory>
        ensures ok { OnOk result (self.new ≡ self.old ++ decimal n) }
        ensures err { OnErr result (self.new ≡ self.old) }
    {
        let mut digits = Buffer::new();
        self.push(digits.format(n).as_bytes())
    }

    /// A number in decimal, with `-` before a negative one. A refusal may leave the sign.
    pub fn push_signed(&mut self, n: i64) -> Result<(), Memory>
        ensures ok { OnOk result (self.new ≡ self.old ++ signed n) }
        ensures err { OnErr result (StartsWith self.new self.old) }
    {
        if n < 0 {
            self.push(b"-")?;
        }
        self.push_number(n.unsigned_abs())
    }

    /// One byte, as itself or as `%` and two digits; a refusal adds nothing.
    fn push_escaped_byte(&mut self, byte: u8) -> Result<(), Memory>
        ensures ok { OnOk result (self.new ≡ self.old ++ escaped_byte byte) }
        ensures err { OnErr result (self.new ≡ self.old) }
    {
        if is_printed_byte(byte) {
            self.push(&[byte])
        } else {
            self.push(&[b'%', hex_digit(byte / 16), hex_digit(byte % 16)])
        }
    }

    /// A text in which blanks, control bytes, bytes from 0x7F on, `%` and `,` are escaped. A refusal may leave a front
    /// of it.
    pub fn push_escaped(&mut self, text: &[u8]) -> Result<(), Memory>
        ensures ok { OnOk result (self.new ≡ self.old ++ escaped text.now) }
        ensures err { OnErr result (StartsWith self.new self.old) }
    {
        for &byte in text {
            self.push_escaped_byte(byte)?;
        }
        Ok(())
    }

    /// Empties the text, and keeps its memory for the next one. Takes no memory.
    pub fn clear(&mut self)
        ensures { self.new ≡ [] }
    {
        self.bytes.clear();
    }

    /// Takes no memory.
    pub fn len(&self) -> usize
        ensures { result ≡ length self.now }
    {
        self.bytes.len()
    }

    /// Takes no memory.
    pub fn bytes(&self) -> &[u8]
        ensures { result.now ≡ self.now }
    {
        self.bytes.as_slice()
    }

    /// Takes no memory.
    pub fn into_text(self) -> Text
        ensures { result ≡ self }
    {
        let TextBuilder { bytes } = self;
        Text::from_vec(bytes)
    }
}
