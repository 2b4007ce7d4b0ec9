//! Where a piece of a wildcard stands in a text. No function here takes memory.
ghost use Rattle.std.specs.Prelude.{◌≡◌, ◌↔◌, true, IsTrue};
ghost use Rattle.text_match.specs.Splits.{IsAfterFront, IsBeforeEnd, IsFirstFound};
ghost use Rattle.text_match.specs.Wildcards.{compared};

use memchr::memmem;

/// What stands before and after a piece in a text.
#[derive(Clone, Copy)]
pub(crate) struct Split<'t> {
    pub before: &'t [u8],
    pub after: &'t [u8],
}

/// Whether a text is a piece.
fn is_piece(text: &[u8], piece: &[u8], strict: bool) -> bool
    ensures { IsTrue result ↔ (compared strict text.now ≡ compared strict piece.now) }
{
    if strict {
        text == piece
    } else {
        text.eq_ignore_ascii_case(piece)
    }
}

/// What stands after a piece with which the text begins.
pub(crate) fn after_front<'t>(text: &'t [u8], piece: &[u8], strict: bool) -> Option<&'t [u8]>
    ensures { IsAfterFront strict piece.now text.now result }
{
    if text.len() < piece.len() {
        return None;
    }
    let (front, after) = text.split_at(piece.len());
    if is_piece(front, piece, strict) {
        Some(after)
    } else {
        None
    }
}

/// What stands before a piece with which the text ends.
pub(crate) fn before_end<'t>(text: &'t [u8], piece: &[u8], strict: bool) -> Option<&'t [u8]>
    ensures { IsBeforeEnd strict piece.now text.now result }
{
    if text.len() < piece.len() {
        return None;
    }
    let (before, end) = text.split_at(text.len() - piece.len());
    if is_piece(end, piece, strict) {
        Some(before)
    } else {
        None
    }
}

/// The split at the first place of a piece, where case counts.
pub(crate) fn exact_split<'t>(text: &'t [u8], piece: &[u8]) -> Option<Split<'t>>
    ensures { IsFirstFound true piece.now text.now result }
{
    match memmem::find(text, piece) {
        Some(at) => Some(Split {
            before: &text[..at],
            after: &text[at + piece.len()..],
        }),
        None => None,
    }
}
