//! A piece of a wildcard that is searched for in a text with ASCII case ignored, by Knuth, Morris and Pratt: each byte
//! of the text is looked at once, and what was matched is never matched again.
ghost use Rattle.std.specs.Prelude.{◌≡◌, ◌<◌, ◌≤◌, false, IfOk, MatchOption, length};
ghost use Rattle.text_match.specs.Borders.{AreBorders, HaveBorders, IsNext, IsFirstPlace, IsNoPlace};
ghost use Rattle.text_match.specs.Splits.{IsFirstFound};

use crate::splitting::{Split, exact_split};
use edge_base::{Memory, Text};
use std::alloc::Global;
use std::marker::Model;

/// A piece, with the table of its borders: for each of its fronts, how long the longest front is that is also its end.
/// Contracts see the piece.
#[derive(Debug, Drop)]
pub(crate) struct Needle {
    piece: Text,
    borders: Vec<usize>,
}

impl Model for Needle {
    ghost use Rattle.std.specs.Prelude.{List, ℕ};
    ghost use Rattle.text_match.specs.Borders.{HaveBorders};

    ghost Value = { List ℕ };

    ghost view = { λ needle. needle.piece };

    ghost invariant = { λ needle. HaveBorders needle.piece needle.borders.items };
}

/// How long the longest front of the piece is that ends its front of this size and then a byte in lower case.
fn next_size(piece: &[u8], borders: &[usize], size: usize, byte: u8) -> usize
    requires within { size < length piece.now }
    requires known { size ≤ length borders.now }
    requires borders { AreBorders piece.now borders.now }
    ensures { IsNext piece.now size byte result }
{
    let mut front = size;
    while piece[front].to_ascii_lowercase() != byte {
        if front == 0 {
            return 0;
        }
        front = borders[front - 1];
    }
    front + 1
}

/// The table of a piece.
fn borders_of(alloc: Global, piece: &[u8]) -> Result<Vec<usize>, Memory>
    ensures { IfOk result (λ borders. HaveBorders piece.now borders.items) }
{
    let mut borders = Vec::new(alloc);
    let [_, later @ ..] = piece else {
        return Ok(borders);
    };
    let mut size = 0;
    borders.push(size)?;
    for byte in later {
        size = next_size(piece, borders.as_slice(), size, byte.to_ascii_lowercase());
        borders.push(size)?;
    }
    Ok(borders)
}

/// The first place of a piece.
fn first_place(piece: &[u8], borders: &[usize], text: &[u8]) -> Option<usize>
    requires borders { HaveBorders piece.now borders.now }
    ensures { MatchOption result (IsNoPlace piece.now text.now) (IsFirstPlace piece.now text.now) }
{
    if piece.is_empty() {
        return Some(0);
    }
    let mut size = 0;
    let mut seen = 0;
    for byte in text {
        size = next_size(piece, borders, size, byte.to_ascii_lowercase());
        seen += 1;
        if size == piece.len() {
            return Some(seen - size);
        }
    }
    None
}

impl Needle {
    /// Makes the table of a piece.
    pub fn of(alloc: Global, piece: Text) -> Result<Needle, Memory>
        ensures { IfOk result (λ needle. needle ≡ piece) }
    {
        let borders = borders_of(alloc, piece.bytes())?;
        Ok(Needle { piece, borders })
    }

    /// The piece.
    pub fn bytes(&self) -> &[u8]
        ensures { result.now ≡ self.now }
    {
        self.piece.bytes()
    }

    /// The split at the first place of the piece, where case doesn't count.
    fn folded_split<'t>(&self, text: &'t [u8]) -> Option<Split<'t>>
        ensures { IsFirstFound false self.now text.now result }
    {
        let piece = self.piece.bytes();
        match first_place(piece, self.borders.as_slice(), text) {
            Some(at) => Some(Split {
                before: &text[..at],
                after: &text[at + piece.len()..],
            }),
            None => None,
        }
    }

    /// The split at the first place of the piece. Takes no memory.
    pub fn first_split<'t>(&self, text: &'t [u8], strict: bool) -> Option<Split<'t>>
        ensures { IsFirstFound strict self.now text.now result }
    {
        if strict {
            exact_split(text, self.piece.bytes())
        } else {
            self.folded_split(text)
        }
    }
}
