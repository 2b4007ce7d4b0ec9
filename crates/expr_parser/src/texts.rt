ghost use Rattle.std.specs.Prelude.{◌≡◌, ◌==◌, false, nat_eq, replicate, IfOk};
ghost use Rattle.std.specs.List.{list_all, starts_with, prefix_len};
ghost use Rattle.edge_base.specs.Token.{is_name_byte, quoted_of, quoted_text_of, raw_bytes_of, marks_of, raw_text_of, list_name_of};

use edge_base::{Memory, Text};
use std::alloc::Global;

/// The bytes that a text stands for, behind its first `"`.
fn quoted_of(alloc: Global, text: &[u8]) -> Result<Option<Text>, Memory>
    ensures { IfOk result (λ found. found ≡ quoted_of false text.now) }
{
    let mut bytes = Vec::new(alloc);
    let mut escaped = false;
    for (at, &byte) in text.iter().enumerate() {
        if escaped {
            if byte != b'"' && byte != b'\\' {
                return Ok(None);
            }
            bytes.push(byte)?;
            escaped = false;
            continue;
        }
        if byte == b'"' {
            if at + 1 < text.len() {
                return Ok(None);
            }
            return Ok(Some(Text::from_vec(bytes)));
        }
        if byte == b'\\' {
            escaped = true;
            continue;
        }
        bytes.push(byte)?;
    }
    Ok(None)
}

/// The bytes that a text in `"` stands for.
pub fn quoted_text_of(alloc: Global, text: &[u8]) -> Result<Option<Text>, Memory>
    ensures { IfOk result (λ found. found ≡ quoted_text_of text.now) }
{
    match text.split_first() {
        Some((&first, rest)) if first == b'"' => quoted_of(alloc, rest),
        _ => Ok(None),
    }
}

fn are_marks(text: &[u8]) -> bool
    ensures { result ≡ list_all (λ byte. byte == 35) text.now }
{
    text.iter().all(|&byte| byte == b'#')
}

/// Whether a text begins with this many marks `#`.
#[tactic(auto, using(crate::proofs::Marks::marks_front))]
fn begins_with_marks(text: &[u8], marks: usize) -> bool
    ensures { result ≡ starts_with nat_eq text.now (replicate marks 35) }
{
    marks <= text.len() && are_marks(&text[..marks])
}

/// How many marks `#` a text begins with.
fn marks_of(text: &[u8]) -> usize
    ensures { result ≡ marks_of text.now }
{
    text.iter().take_while(|byte| **byte == b'#').count()
}

/// The bytes up to the first `"` with `marks` marks behind it, which end the text.
fn raw_bytes_of(alloc: Global, text: &[u8], marks: usize) -> Result<Option<Text>, Memory>
    ensures { IfOk result (λ found. found ≡ raw_bytes_of marks text.now) }
{
    for (at, &byte) in text.iter().enumerate() {
        let behind = &text[at + 1..];
        if byte == b'"' && begins_with_marks(behind, marks) {
            if behind.len() != marks {
                return Ok(None);
            }
            return Ok(Some(Text::of(alloc, &text[..at])?));
        }
    }
    Ok(None)
}

/// The bytes that a raw text stands for.
pub fn raw_text_of(alloc: Global, text: &[u8]) -> Result<Option<Text>, Memory>
    ensures { IfOk result (λ found. found ≡ raw_text_of text.now) }
{
    let Some((&first, rest)) = text.split_first() else {
        return Ok(None);
    };
    let marks = marks_of(rest);
    if first != b'r' || 8 < marks || rest.len() <= marks || rest[marks] != b'"' {
        return Ok(None);
    }
    raw_bytes_of(alloc, &rest[marks + 1..], marks)
}

fn are_name_bytes(text: &[u8]) -> bool
    ensures { result ≡ list_all is_name_byte text.now }
{
    text.iter().all(|&byte| b'a' <= byte && byte <= b'z'
        || byte == b'_'
        || b'0' <= byte && byte <= b'9')
}

/// The list that a text names.
pub fn list_name_of(alloc: Global, text: &[u8]) -> Result<Option<Text>, Memory>
    ensures { IfOk result (λ found. found ≡ list_name_of text.now) }
{
    let Some((&first, rest)) = text.split_first() else {
        return Ok(None);
    };
    if first == b'$' && !rest.is_empty() && are_name_bytes(rest) {
        return Ok(Some(Text::of(alloc, rest)?));
    }
    Ok(None)
}
