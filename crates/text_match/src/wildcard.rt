//! Wildcards: texts in which a star stands for any bytes.
ghost use Rattle.std.specs.Prelude.{◌≡◌, ◌↔◌, None, IfOk, OnOk, IsErrOf, IsTrue};
ghost use Rattle.text_match.specs.Splits.{HasTurns, AreFirstFound};
ghost use Rattle.text_match.specs.Marks.{pieces_left};
ghost use Rattle.text_match.specs.Wildcards.{fault_of, HasFault, pieces_of, IsMatched, IsFirst, FirstTakesAreUnique};

use crate::needle::Needle;
use crate::reading::{WildFault, first_fault, read_piece};
use crate::splitting::{after_front, before_end};
use edge_base::{Memory, Text, Texts};
use sqlite_items::Items;
use std::alloc::Global;
use std::marker::Model;

/// A wildcard that was read. Contracts see its pieces, of which there is one more than stars.
#[derive(Debug, Drop)]
pub struct Wild {
    first: Text,
    later: Items<Needle>,
}

impl Model for Wild {
    ghost use Rattle.std.specs.Prelude.{List, ℕ, ◌∷◌};

    ghost Value = { List (List ℕ) };

    ghost view = { λ wild. wild.first ∷ wild.later };
}

/// The pieces that stand after the stars of a pattern without a fault: `rest` is what stands after its first star.
fn read_later(alloc: Global, rest: Option<&[u8]>) -> Result<Items<Needle>, Memory>
    ensures { IfOk result (λ later. later ≡ pieces_left rest.entry) }
{
    let mut later = Items::new(alloc);
    let mut rest = rest;
    while let Some(pattern) = rest {
        let (piece, after) = read_piece(alloc, pattern)?;
        later.push(Needle::of(alloc, piece)?)?;
        rest = after;
    }
    Ok(later)
}

/// Reads a pattern without a fault.
fn read(alloc: Global, pattern: &[u8]) -> Result<Wild, Memory>
    ensures { IfOk result (λ wild. wild ≡ pieces_of pattern.now) }
{
    let (first, rest) = read_piece(alloc, pattern)?;
    let later = read_later(alloc, rest)?;
    Ok(Wild { first, later })
}

/// Whether a text is takes and these pieces by turns. One pass: a first place of a piece loses no match.
fn has_turns(pieces: &[Needle], text: &[u8], strict: bool) -> bool
    ensures { IsTrue result ↔ HasTurns strict pieces.now text.now }
{
    let [middle @ .., last] = pieces else {
        return text.is_empty();
    };
    let mut rest = text;
    for piece in middle {
        match piece.first_split(rest, strict) {
            Some(split) => rest = split.after,
            None => return false,
        }
    }
    before_end(rest, last.bytes(), strict).is_some()
}

/// The first takes by turns with these pieces.
fn first_turns(
    alloc: Global,
    pieces: &[Needle],
    text: &[u8],
    strict: bool,
) -> Result<Option<Texts>, Memory>
    ensures { IfOk result (λ found. AreFirstFound strict pieces.now text.now found) }
{
    let mut takes = Items::new(alloc);
    let [middle @ .., last] = pieces else {
        return Ok(if text.is_empty() { Some(takes) } else { None });
    };
    let mut rest = text;
    for piece in middle {
        match piece.first_split(rest, strict) {
            Some(split) => {
                takes.push(Text::of(alloc, split.before)?)?;
                rest = split.after;
            }
            None => return Ok(None),
        }
    }
    match before_end(rest, last.bytes(), strict) {
        Some(taken) => {
            takes.push(Text::of(alloc, taken)?)?;
            Ok(Some(takes))
        }
        None => Ok(None),
    }
}

impl Wild {
    /// Reads a wildcard. The fault is the first in the pattern.
    pub fn build(alloc: Global, pattern: &[u8]) -> Result<Wild, WildFault>
        ensures ok { OnOk result (fault_of pattern.now ≡ None) }
        ensures pieces { IfOk result (λ wild. wild ≡ pieces_of pattern.now) }
        ensures double_star { IsErrOf result WildFault.DoubleStar ↔ (HasFault pattern.now WildFault.DoubleStar) }
        ensures bad_escape { IsErrOf result WildFault.BadEscape ↔ (HasFault pattern.now WildFault.BadEscape) }
    {
        match first_fault(pattern) {
            Some(fault) => Err(fault),
            None => match read(alloc, pattern) {
                Ok(wild) => Ok(wild),
                Err(Memory) => Err(WildFault::Memory),
            },
        }
    }

    /// Whether a text matches, strictly or with ASCII case ignored. Takes no memory.
    pub fn matches(&self, text: &[u8], strict: bool) -> bool
        ensures { IsTrue result ↔ IsMatched self.now strict text.now }
    {
        match after_front(text, self.first.bytes(), strict) {
            Some(rest) => has_turns(self.later.as_slice(), rest, strict),
            None => false,
        }
    }

    /// The first takes: what the stars stand for, where the earlier stars take as little as they can.
    pub fn takes(&self, alloc: Global, text: &[u8], strict: bool) -> Result<Option<Texts>, Memory>
        ensures { IfOk result (λ found. IsFirst self.now strict text.now found) }
    {
        match after_front(text, self.first.bytes(), strict) {
            Some(rest) => first_turns(alloc, self.later.as_slice(), rest, strict),
            None => Ok(None),
        }
    }
}

/// A law: what `takes` gives is decided by the wildcard and the text.
pub fn first_takes_are_unique()
    ensures { FirstTakesAreUnique }
{}
