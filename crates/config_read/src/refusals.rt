ghost use Rattle.config_read.specs.Places.{child, nth};
ghost use Rattle.config_read.specs.Refusals.{refuse, IsAnswerOf, Tells};

use crate::fault::{Cause, ConfigFault};
use crate::places::{child, nth};
use edge_base::{Memory, Text};
use std::alloc::Global;

/// The refusal of what stands at a place. Places are written only where something is refused.
pub(crate) fn refusal(alloc: Global, place: &[u8], cause: Cause) -> ConfigFault
    ensures { Tells result place.now cause }
{
    match Text::of(alloc, place) {
        Ok(place) => ConfigFault::Refused { place, cause },
        Err(Memory) => ConfigFault::Memory,
    }
}

/// The refusal of a member.
pub(crate) fn member_refusal(alloc: Global, place: &[u8], name: &str, cause: Cause) -> ConfigFault
    ensures { Tells result (child place.now name.now) cause }
{
    match child(alloc, place, name.as_bytes()) {
        Ok(place) => ConfigFault::Refused { place, cause },
        Err(Memory) => ConfigFault::Memory,
    }
}

/// The refusal of an element.
pub(crate) fn element_refusal(
    alloc: Global,
    place: &[u8],
    number: usize,
    cause: Cause,
) -> ConfigFault
    ensures { Tells result (nth place.now number) cause }
{
    match nth(alloc, place, number) {
        Ok(place) => ConfigFault::Refused { place, cause },
        Err(Memory) => ConfigFault::Memory,
    }
}

/// Refuses a member where the test is true.
pub(crate) fn refuse(
    alloc: Global,
    test: bool,
    place: &[u8],
    name: &str,
    cause: Cause,
) -> Result<(), ConfigFault>
    ensures { IsAnswerOf result (refuse (child place.now name.now) cause test) }
{
    if test {
        return Err(member_refusal(alloc, place, name, cause));
    }
    Ok(())
}
