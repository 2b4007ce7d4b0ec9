//! A request off a link.
ghost use Rattle.std.specs.Prelude.{◌≡◌, false, ◌<◌, ◌≤◌, ◌+◌, ◌-◌, [], ℕ, List, Some, length, take, IfOk, IfErr, OnOk, IsErrOf, IsErrAnd};
ghost use Rattle.std.specs.Io.KnownBytes.{IsAtEnd};
ghost use Rattle.edge_outside.specs.Faults.{Rose};
ghost use Rattle.edge_outside.specs.Told.{Gave};
ghost use Rattle.http_front.specs.Framing.{body_max};
ghost use Rattle.http_front.specs.Heads.{headers_max, head_max};
ghost use Rattle.http_front.specs.Places.{is_ended};
ghost use Rattle.http_front.specs.Reading.{arrival_of, Answers, piece_max, TookSome, UntilHead, TookUntil};
ghost use Rattle.http_front.specs.Steps.{Covers, LacksHead, IsReadCause, TookInto, TookOn, TookMore, IsLast, CameWhole, CameJust};
ghost use Rattle.http_front.specs.declared.causes.HeadFault.{HeadFault};

use crate::causes::HeadFault;
use crate::heads::{HEAD_MAX, HEADERS_MAX, HeadState, begin, look};
use crate::places::Place;
use crate::requests::open_cause;
use edge_base::{Addr, Moment, Request, TextBuilder};
use edge_outside::{Failed, Link, Source};
use httparse::spans::{EMPTY_HEADER_SPAN, HeaderSpan, RequestSpans};
use std::alloc::Global;

/// The most bytes that one read takes.
const PIECE: usize = 4096;

/// Reads a piece that fits these bytes behind what came. 0 is the end.
fn read_piece<S: Source>(
    source: &mut S,
    came: &mut TextBuilder,
    piece: &mut [u8],
) -> Result<usize, HeadFault>
    requires { 0 < length piece.old }
    ensures ok { IfOk result (TookInto S.left S.taken source.old source.new came.old came.new piece.new) }
    ensures within { IfOk result (λ count. count ≤ length piece.new) }
    ensures end { IfOk result (λ count. count ≡ 0 → IsAtEnd (S.left source.new)) }
    ensures took { TookSome S.left S.taken source.old source.new (length piece.old) }
    ensures err { IfErr result IsReadCause }
    ensures fault { IsErrOf result HeadFault.ReadFault → Rose (S.faults source.old) (S.faults source.new) }
    ensures kept { ¬ (IsErrOf result HeadFault.ReadFault) → S.faults source.new ≡ S.faults source.old }
    ensures stays { S.beside source.new ≡ S.beside source.old }
{
    let count = match source.read(piece) {
        Ok(count) => count,
        Err(Failed) => return Err(HeadFault::ReadFault),
    };
    came.push(&piece[..count])?;
    Ok(count)
}

/// Reads on behind what came, up to `most` bytes in all. 0 is the end, or that so many came.
fn read_more<S: Source>(
    source: &mut S,
    came: &mut TextBuilder,
    most: usize,
) -> Result<usize, HeadFault>
    requires { length came.old ≤ most }
    ensures ok { IfOk result (TookMore S.left S.taken source.old source.new came.old came.new) }
    ensures within { OnOk result (length came.new ≤ most) }
    ensures few { IfOk result (λ count. count ≤ piece_max) }
    ensures end { IfOk result (λ count. count ≡ 0 → IsLast (length came.new) most (S.left source.new)) }
    ensures took { TookSome S.left S.taken source.old source.new (most - length came.old) }
    ensures err { IfErr result IsReadCause }
    ensures fault { IsErrOf result HeadFault.ReadFault → Rose (S.faults source.old) (S.faults source.new) }
    ensures kept { ¬ (IsErrOf result HeadFault.ReadFault) → S.faults source.new ≡ S.faults source.old }
    ensures stays { S.beside source.new ≡ S.beside source.old }
{
    let room = most - came.len();
    if room == 0 {
        return Ok(0);
    }
    let mut piece = [0; PIECE];
    read_piece(source, came, &mut piece[..room.min(PIECE)])
}

/// Whether to look for a head in so many bytes that came: where no more will come, where an empty line ended, and where
/// they are twice those of the last look.
fn is_time(count: usize, place: Place, looked: usize, came: usize) -> bool
    ensures { result ≡ false → (is_ended place ≡ false) × (0 < count) }
{
    count == 0 || place.is_ended() || looked <= came / 2
}

/// Reads a head, and perhaps bytes behind it, and tells the places of its fields.
/// A head in small pieces is looked for few times, and soon refused where it can't be one.
fn read_head<S: Source>(
    source: &mut S,
    came: &mut TextBuilder,
    places: &mut [HeaderSpan],
) -> Result<RequestSpans, HeadFault>
    requires empty { came.old ≡ [] }
    requires room { length places.old ≡ headers_max }
    ensures ok { IfOk result (Covers came.new places.new) }
    ensures gave { OnOk result (Gave S.left S.taken source.old source.new came.new) }
    ensures short { OnOk result (length came.new ≤ head_max) }
    ensures until { OnOk result (UntilHead came.new) }
    ensures lacks { (text : List ℕ) → S.left source.old ≡ Some text → IfErr result (LacksHead text) }
    ensures took { TookSome S.left S.taken source.old source.new head_max }
    ensures fault { IsErrOf result HeadFault.ReadFault → Rose (S.faults source.old) (S.faults source.new) }
    ensures kept { ¬ (IsErrOf result HeadFault.ReadFault) → S.faults source.new ≡ S.faults source.old }
    ensures stays { S.beside source.new ≡ S.beside source.old }
{
    let mut place = Place::Front;
    let mut looked = 0;
    'reading: loop {
        let before = came.len();
        let count = read_more(source, came, HEAD_MAX)?;
        let (_, new) = came.bytes().split_at(before);
        place = place.behind(new);
        if is_time(count, place, looked, came.len()) {
            looked = came.len();
            match look(came.bytes(), places) {
                HeadState::Whole(head) => return Ok(head),
                HeadState::Bad => return Err(HeadFault::BadHead),
                HeadState::Crowded => return Err(HeadFault::TooManyHeaders),
                HeadState::Open => {
                    if count == 0 {
                        return Err(open_cause(looked));
                    }
                }
            }
        }
    }
}

/// Reads on until `whole` bytes came.
fn read_rest<S: Source>(
    source: &mut S,
    came: &mut TextBuilder,
    whole: usize,
) -> Result<(), HeadFault>
    ensures came { CameWhole whole came.new (S.left source.new) result }
    ensures just { OnOk result (CameJust whole came.old came.new) }
    ensures gave { ¬ (IsErrAnd result IsReadCause) → TookOn S.left S.taken source.old source.new came.old came.new }
    ensures took { TookSome S.left S.taken source.old source.new (whole - length came.old) }
    ensures fault { IsErrOf result HeadFault.ReadFault → Rose (S.faults source.old) (S.faults source.new) }
    ensures kept { ¬ (IsErrOf result HeadFault.ReadFault) → S.faults source.new ≡ S.faults source.old }
    ensures stays { S.beside source.new ≡ S.beside source.old }
{
    while came.len() < whole {
        if read_more(source, came, whole)? == 0 {
            return Err(HeadFault::Cut);
        }
    }
    Ok(())
}

/// Reads a request. Of the bytes behind its head, no more are asked for than its body has.
fn read_from<S: Source>(
    alloc: Global,
    source: &mut S,
    from: Addr,
    ssl: bool,
    at: Moment,
) -> Result<Request, HeadFault>
    ensures reads { (text : List ℕ) → S.left source.old ≡ Some text
        → ¬ (IsErrOf result HeadFault.Memory) → ¬ (IsErrOf result HeadFault.ReadFault)
        → Answers (arrival_of from ssl at) text result }
    ensures took { TookSome S.left S.taken source.old source.new (head_max + body_max) }
    ensures until { IfOk result (λ request. TookUntil S.left S.taken source.old source.new request.body) }
    ensures fault { IsErrOf result HeadFault.ReadFault → Rose (S.faults source.old) (S.faults source.new) }
    ensures kept { ¬ (IsErrOf result HeadFault.ReadFault) → S.faults source.new ≡ S.faults source.old }
    ensures stays { S.beside source.new ≡ S.beside source.old }
{
    let mut places = [EMPTY_HEADER_SPAN; HEADERS_MAX];
    let mut came = TextBuilder::new(alloc);
    let head = read_head(source, &mut came, &mut places)?;
    let begun = begin(alloc, came.bytes(), &places, &head)?;
    read_rest(source, &mut came, begun.start + begun.length)?;
    Ok(begun.into_request(alloc, came.bytes(), from, ssl, at)?)
}

/// Reads a request off a link, and leaves its sink as it was.
pub fn read_request<K: Link>(
    alloc: Global,
    link: &mut K,
    from: Addr,
    ssl: bool,
    at: Moment,
) -> Result<Request, HeadFault>
    ensures reads { (text : List ℕ) → K.left link.old ≡ Some text
        → ¬ (IsErrOf result HeadFault.Memory) → ¬ (IsErrOf result HeadFault.ReadFault)
        → Answers (arrival_of from ssl at) text result }
    ensures took { TookSome K.left K.taken link.old link.new (head_max + body_max) }
    ensures until { IfOk result (λ request. TookUntil K.left K.taken link.old link.new request.body) }
    ensures fault { IsErrOf result HeadFault.ReadFault → Rose (K.Source.faults link.old) (K.Source.faults link.new) }
    ensures kept { ¬ (IsErrOf result HeadFault.ReadFault) → K.Source.faults link.new ≡ K.Source.faults link.old }
    ensures sink { (K.shown link.new).sink ≡ (K.shown link.old).sink }
{
    read_from(alloc, link, from, ssl, at)
}
