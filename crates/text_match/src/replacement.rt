//! Replacements, in which `${1}` to `${8}` stand for parts.
ghost use Rattle.std.specs.Prelude.{◌≡◌, ◌<◌, [], ◌∷◌, ◌++◌, List, ℕ, IfOk, IfSome, OnOk, MatchOption, length};
ghost use Rattle.text_match.specs.Marks.{FillsOn};
ghost use Rattle.text_match.specs.Replacement.{part_at, filled};

use edge_base::{Memory, Text, TextBuilder};
use std::alloc::Global;

/// What a replacement begins with: a byte that stands for itself, or the place of a part.
enum Piece {
    Byte(u8),
    Part(usize),
}

/// The first piece of a replacement, and what stands after it.
#[tactic(auto, unfolding(crate::specs::Replacement::filled))]
fn first_piece(replacement: &[u8]) -> Option<(Piece, &[u8])>
    ensures pieces { MatchOption result (replacement.now ≡ []) (λ found. FillsOn replacement.now found.0 found.1.now) }
    ensures shorter { IfSome result (λ found. length found.1.now < length replacement.now) }
{
    match replacement {
        [] => None,
        [b'$', b'{', digit @ b'1'..=b'8', b'}', rest @ ..] => {
            Some((Piece::Part(usize::from(*digit - b'1')), rest))
        }
        [byte, rest @ ..] => Some((Piece::Byte(*byte), rest)),
    }
}

/// The part at a place, which is empty beyond the last.
fn part_at(parts: &[Text], place: usize) -> &[u8]
    ensures { result.now ≡ part_at parts.now place }
{
    match parts.get(place) {
        Some(part) => part.bytes(),
        None => &[],
    }
}

/// A replacement with each reference written as its part: a group of a match, or a take of a wildcard.
#[tactic(auto, unfolding(crate::specs::Replacement::filled))]
pub fn fill(alloc: Global, replacement: &[u8], parts: &[Text]) -> Result<Text, Memory>
    ensures { IfOk result (λ text. text ≡ filled parts.now replacement.now) }
{
    let mut text = TextBuilder::new(alloc);
    let mut rest = replacement;
    while let Some((piece, after)) = first_piece(rest) {
        match piece {
            Piece::Byte(byte) => text.push(&[byte])?,
            Piece::Part(place) => text.push(part_at(parts, place))?,
        }
        rest = after;
    }
    Ok(text.into_text())
}
