//! How the text of a wildcard is read: its faults, and its pieces.
ghost use Rattle.std.specs.Prelude.{◌≡◌, ◌<◌, [], IfOk, IfSome, MatchOption, MatchResult, length};
ghost use Rattle.text_match.specs.Wildcards.{fault_of, HasFault};
ghost use Rattle.text_match.specs.Marks.{IsFaultOf, GoesOn, BeginsWith};

use edge_base::{Memory, Text, TextBuilder};
use std::alloc::Global;
use thiserror::Error;

/// Why a text is no wildcard: the first fault in it, or that memory was refused.
#[derive(Clone, Copy, Debug, PartialEq, Eq, Error)]
pub enum WildFault {
    #[error("two stars stand in a row")]
    DoubleStar,
    #[error("a backslash escapes neither a star nor a backslash")]
    BadEscape,
    #[error("out of memory")]
    Memory,
}

/// What a pattern begins with: a byte that stands for itself, or a star.
enum Mark {
    Byte(u8),
    Star,
}

/// What stands after the first byte, star or escape, unless that is a fault.
#[tactic(auto, unfolding(crate::specs::Wildcards::fault_of))]
fn after_mark(pattern: &[u8]) -> Result<&[u8], WildFault>
    requires { 0 < length pattern.now }
    ensures fault { MatchResult result (λ rest. IsFaultOf pattern.now rest.now) (HasFault pattern.now) }
    ensures shorter { IfOk result (λ rest. length rest.now < length pattern.now) }
{
    match pattern {
        [b'\\', b'*' | b'\\', rest @ ..] => Ok(rest),
        [b'\\', ..] => Err(WildFault::BadEscape),
        [b'*', b'*', ..] => Err(WildFault::DoubleStar),
        _ => Ok(&pattern[1..]),
    }
}

/// The first fault. Takes no memory.
#[tactic(auto, unfolding(crate::specs::Wildcards::fault_of))]
pub(crate) fn first_fault(pattern: &[u8]) -> Option<WildFault>
    ensures { result ≡ fault_of pattern.now }
{
    let mut rest = pattern;
    while !rest.is_empty() {
        match after_mark(rest) {
            Ok(after) => rest = after,
            Err(fault) => return Some(fault),
        }
    }
    None
}

/// The first mark of a pattern without a fault, and what stands after it.
#[tactic(auto, unfolding(crate::specs::Wildcards::pieces_of))]
fn first_mark(pattern: &[u8]) -> Option<(Mark, &[u8])>
    ensures pieces { MatchOption result (pattern.now ≡ []) (λ found. GoesOn pattern.now found.0 found.1.now) }
    ensures shorter { IfSome result (λ found. length found.1.now < length pattern.now) }
{
    match pattern {
        [] => None,
        [b'*', rest @ ..] => Some((Mark::Star, rest)),
        [b'\\', byte, rest @ ..] => Some((Mark::Byte(*byte), rest)),
        [byte, rest @ ..] => Some((Mark::Byte(*byte), rest)),
    }
}

/// The first piece of a pattern without a fault, and what stands after its star.
#[tactic(auto, unfolding(crate::specs::Wildcards::pieces_of), using(crate::proofs::Pieces::after_start_more, crate::proofs::Pieces::after_start_star))]
pub(crate) fn read_piece(alloc: Global, pattern: &[u8]) -> Result<(Text, Option<&[u8]>), Memory>
    ensures pieces { IfOk result (λ read. BeginsWith pattern.now read.0 read.1) }
    ensures shorter { IfOk result (λ read. IfSome read.1 (λ rest. length rest.now < length pattern.now)) }
{
    let mut piece = TextBuilder::new(alloc);
    let mut rest = pattern;
    while let Some((mark, after)) = first_mark(rest) {
        match mark {
            Mark::Star => return Ok((piece.into_text(), Some(after))),
            Mark::Byte(byte) => piece.push(&[byte])?,
        }
        rest = after;
    }
    Ok((piece.into_text(), None))
}
