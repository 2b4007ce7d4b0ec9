//! Bytes of a new path or query, escaped where they can't stand in a target.
ghost use Rattle.std.specs.Prelude.{◌≡◌, ◌++◌, OnOk};
ghost use Rattle.rewrite_apply.specs.Rewrites.{is_visible, is_kept, escaped_byte, escaped_in};

use edge_base::{Memory, TextBuilder};
use percent_encoding::percent_encode_byte;

/// A part of a target.
#[derive(Clone, Copy, Debug, PartialEq, Eq)]
pub(crate) enum Part {
    Path,
    Query,
}

/// Whether a byte is one of ASCII above the blank and below 0x7F.
fn is_visible(byte: u8) -> bool
    ensures { result ≡ is_visible byte }
{
    b' ' < byte && byte < 0x7f
}

/// Whether a byte stands in the part as it is.
fn is_kept(part: Part, byte: u8) -> bool
    ensures { result ≡ is_kept part byte }
{
    match part {
        Part::Path => is_visible(byte) && byte != b'#' && byte != b'?',
        Part::Query => is_visible(byte) && byte != b'#',
    }
}

/// Adds one byte, as itself or as `%` and two digits.
fn push_byte(text: &mut TextBuilder, part: Part, byte: u8) -> Result<(), Memory>
    ensures { OnOk result (text.new ≡ text.old ++ escaped_byte part byte) }
{
    if is_kept(part, byte) {
        text.push(&[byte])
    } else {
        text.push(percent_encode_byte(byte).as_bytes())
    }
}

/// Adds the bytes of a part, each as itself or escaped.
pub(crate) fn push_escaped(text: &mut TextBuilder, part: Part, bytes: &[u8]) -> Result<(), Memory>
    ensures { OnOk result (text.new ≡ text.old ++ escaped_in part bytes.now) }
{
    for &byte in bytes {
        push_byte(text, part, byte)?;
    }
    Ok(())
}
