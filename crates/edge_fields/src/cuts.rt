ghost use Rattle.std.specs.Prelude.{◌≡◌, ◌≤◌, length};
ghost use Rattle.std.specs.List.{position_or_len, before_first, after_first};
ghost use Rattle.memchr.specs.Find.{is_byte};

use memchr::memchr;

/// The place of the first such byte, or the end.
#[tactic(auto, using(crate::proofs::PlaceLemmas::first_byte_position))]
fn place_of(byte: u8, text: &[u8]) -> usize
    ensures value { result ≡ position_or_len (is_byte byte) text.now }
    ensures within { result ≤ length text.now }
{
    memchr(byte, text).unwrap_or(text.len())
}

/// What stands before the first such byte, or all.
pub(crate) fn before(byte: u8, text: &[u8]) -> &[u8]
    ensures { result.now ≡ before_first (is_byte byte) text.now }
{
    let (front, _) = text.split_at(place_of(byte, text));
    front
}

/// What follows the first such byte, or nothing.
pub(crate) fn after(byte: u8, text: &[u8]) -> &[u8]
    ensures { result.now ≡ after_first (is_byte byte) text.now }
{
    let (_, rest) = text.split_at(place_of(byte, text));
    match rest {
        [_, after @ ..] => after,
        [] => rest,
    }
}
