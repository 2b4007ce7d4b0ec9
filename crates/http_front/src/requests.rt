//! A request out of bytes.
ghost use Rattle.std.specs.Prelude.{◌≡◌, IsErrOf};
ghost use Rattle.http_front.specs.Reading.{arrival_of, Answers, AnswersAreExact};
ghost use Rattle.http_front.specs.Steps.{open_cause};
ghost use Rattle.http_front.specs.declared.causes.HeadFault.{HeadFault};

use crate::causes::HeadFault;
use crate::heads::{HEAD_MAX, HEADERS_MAX, HeadState, begin, look};
use edge_base::{Addr, Moment, Request};
use httparse::spans::EMPTY_HEADER_SPAN;
use std::alloc::Global;

/// The cause where so many bytes, which are all or as many as a head may have, hold no head that is whole.
pub(crate) fn open_cause(length: usize) -> HeadFault
    ensures { result ≡ open_cause length }
{
    if length < HEAD_MAX {
        HeadFault::Cut
    } else {
        HeadFault::HeadTooLong
    }
}

/// The request that these bytes begin with, which are all. Bytes behind it are not used.
pub fn request_of(
    alloc: Global,
    bytes: &[u8],
    from: Addr,
    ssl: bool,
    at: Moment,
) -> Result<Request, HeadFault>
    ensures reads { ¬ (IsErrOf result HeadFault.Memory) → Answers (arrival_of from ssl at) bytes.now result }
    ensures never { ¬ (IsErrOf result HeadFault.ReadFault) }
{
    let mut places = [EMPTY_HEADER_SPAN; HEADERS_MAX];
    let front = &bytes[..HEAD_MAX.min(bytes.len())];
    match look(front, &mut places) {
        HeadState::Whole(head) => {
            let begun = begin(alloc, front, &places, &head)?;
            if bytes.len() - begun.start < begun.length {
                return Err(HeadFault::Cut);
            }
            Ok(begun.into_request(alloc, bytes, from, ssl, at)?)
        }
        HeadState::Bad => Err(HeadFault::BadHead),
        HeadState::Crowded => Err(HeadFault::TooManyHeaders),
        HeadState::Open => Err(open_cause(bytes.len())),
    }
}

/// Where a head stands at the front of all the bytes, they give its answer and no other.
pub fn answers_are_exact()
    ensures { AnswersAreExact }
{}
