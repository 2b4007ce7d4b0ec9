//! One step, from the turn of a lane to its giving back.
ghost use Rattle.std.specs.Prelude.{◌≡◌, ◌^◌, ◌<◌, length};
ghost use Rattle.rate_plain.specs.Keys.{lane_of_key};
ghost use Rattle.rate_plain.specs.History.{own_of};
ghost use Rattle.rate_shared.specs.Hands.{IsAtLanes, IsSameSeat, resting, seen_of};
ghost use Rattle.rate_shared.specs.Answering.{Answers};

use crate::rule::{Board, Place};
use crate::turns::{count, give_turn, put_lane, take_lane, take_turn};
use edge_base::Memory;
use rate_plain::{Ask, Counted};
use std::alloc::Global;
use std::sync::Wait;

/// Takes a step of the caller on the lane of the ask. A refusal changes nothing.
pub(crate) fn step_on<R: Wait>(
    rt: &R,
    board: &Board,
    place: &mut Place,
    alloc: Global,
    lane: usize,
    caller: u32,
    ask: &Ask,
) -> Result<Counted, Memory>
    requires table { IsAtLanes board.now.table_id place.old }
    requires lane { (lane < board.now.table_id.slots) × (lane < 1024) }
    requires of_lane { lane_of_key place.old.me.0.shape.lanes ask.now.key ≡ lane }
    requires idle { place.old.me ≡ resting place.old.me.0.shape caller (seen_of place.old.me) }
    requires some_lane { 0 < place.old.me.0.shape.lanes }
    requires room { length (own_of (seen_of place.old.me) caller) < 2 ^ 40 }
    ensures same { IsSameSeat place.old place.new }
    ensures idle { place.new.me ≡ resting place.old.me.0.shape caller (seen_of place.new.me) }
    ensures counted { Answers place.old.me.0.shape caller (seen_of place.old.me) (seen_of place.new.me) ask.now result }
{
    take_turn(rt, board, place, lane);
    let mut taken = take_lane(board, place, lane);
    let counted = count(board, place, alloc, &mut taken, lane, caller, ask);
    put_lane(board, place, lane, taken);
    give_turn(board, place, lane);
    counted
}
