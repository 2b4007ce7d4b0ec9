//! The calls of one step: each is an atomic step on the table, or a plain one on the lane in hand.
ghost use Rattle.std.specs.Prelude.{◌≡◌, ◌<◌, [], ◌∷◌, Some, None, MatchBool};
ghost use Rattle.rate_shared.specs.Rule.{turn_word};
ghost use Rattle.rate_shared.specs.Steps.{turned, going_on, TakesLane, Drew, IsInHand};
ghost use Rattle.rate_shared.specs.Hands.{IsAtLanes, IsSameSeat, IsOut, TookTurn, next_entry, seen_of, MayDraw};
ghost use Rattle.rate_shared.specs.Answering.{AnswersNext, DrewNext};

use crate::plays::{Drawn, DrawsEntry, GivesTurn, TakesTurn};
use crate::rule::{Board, Place};
use edge_base::Memory;
use rate_lane::Lane;
use rate_plain::{Ask, Counted};
use std::alloc::Global;
use std::marker::Brand;
use std::sync::Wait;
use std::thread;

/// Takes the turn of the lane, and its slot, if nobody has them.
fn try_turn(board: &Board, place: &mut Place, lane: usize) -> bool
    requires table { IsAtLanes board.now.table_id place.old }
    requires lane { (lane < board.now.table_id.slots) × (lane < 1024) }
    requires some_lane { 0 < place.old.me.0.shape.lanes }
    ensures same { IsSameSeat place.old place.new }
    ensures took { MatchBool result (TakesLane lane place.old.me place.new.me) (place.new.me ≡ place.old.me) }
{
    board.compare_exchange::<TakesTurn>(place, lane + 1, 0, 1) == 0
}

/// Waits for the turn of the lane, and takes it with the lane's slot.
pub(crate) fn take_turn<R: Wait>(rt: &R, board: &Board, place: &mut Place, lane: usize)
    requires table { IsAtLanes board.now.table_id place.old }
    requires lane { (lane < board.now.table_id.slots) × (lane < 1024) }
    requires some_lane { 0 < place.old.me.0.shape.lanes }
    requires idle { place.old.me.1 ≡ [] }
    ensures same { IsSameSeat place.old place.new }
    ensures took { TookTurn lane place.old.me place.new.me }
{
    for _ in rt.forever() {
        if try_turn(board, place, lane) {
            return;
        }
        thread::yield_now();
    }
    unreachable!()
}

/// Takes the lane out of its slot.
pub(crate) fn take_lane(board: &Board, place: &mut Place, lane: usize) -> Lane
    requires table { place.old.table_id ≡ board.now.table_id }
    requires out { IsOut lane place.old.me }
    ensures same { IsSameSeat place.old place.new }
    ensures view { place.new.me ≡ (place.old.me.0, (lane, None) ∷ []) }
    ensures hand { IsInHand place.old.me.0.shape result place.old.me.0.mine }
{
    board.exchange(place, lane, None).unwrap()
}

fn draw_as<N: Drawn>(board: &Board, place: &mut Place, lane: usize, caller: u32, ask: &Ask) -> u64
    requires table { (place.old.table_id ≡ board.now.table_id) × (0 < board.now.table_id.words) }
    requires may { MayDraw place.old.me lane caller ask.now }
    requires entry { N.entry ≡ next_entry place.old.me caller ask.now }
    ensures same { IsSameSeat place.old place.new }
    ensures drew { Drew N.entry place.old.me result place.new.me }
{
    board.fetch_add::<DrawsEntry<N>>(place, 0, 1)
}

/// Draws the next position, for the entry that the lane in hand gives.
pub(crate) fn draw(board: &Board, place: &mut Place, lane: usize, caller: u32, ask: &Ask) -> u64
    requires table { (place.old.table_id ≡ board.now.table_id) × (0 < board.now.table_id.words) }
    requires may { MayDraw place.old.me lane caller ask.now }
    ensures same { IsSameSeat place.old place.new }
    ensures drew { Drew (next_entry place.old.me caller ask.now) place.old.me result place.new.me }
{
    draw_as::<Brand>(board, place, lane, caller, ask)
}

/// Answers by the lane in hand, and draws the position. A refusal draws nothing.
pub(crate) fn count(
    board: &Board,
    place: &mut Place,
    alloc: Global,
    lane: &mut Lane,
    number: usize,
    caller: u32,
    ask: &Ask,
) -> Result<Counted, Memory>
    requires table { (place.old.table_id ≡ board.now.table_id) × (0 < board.now.table_id.words) }
    requires may { MayDraw place.old.me number caller ask.now }
    requires hand { IsInHand place.old.me.0.shape lane.old place.old.me.0.mine }
    ensures same { IsSameSeat place.old place.new }
    ensures hand { IsInHand place.new.me.0.shape lane.new place.new.me.0.mine }
    ensures out { place.new.me.1 ≡ place.old.me.1 }
    ensures view { place.new.me.0 ≡ going_on place.old.me.0 (seen_of place.new.me) place.new.me.0.mine }
    ensures answer { AnswersNext place.old.me caller ask.now result }
    ensures drew { DrewNext place.old.me place.new.me caller ask.now result }
{
    let answer = lane.step(alloc, ask)?;
    let position = draw(board, place, number, caller, ask);
    Ok(Counted { position, answer })
}

/// Puts the lane back into its slot.
pub(crate) fn put_lane(board: &Board, place: &mut Place, number: usize, lane: Lane)
    requires table { place.old.table_id ≡ board.now.table_id }
    requires out { place.old.me.1 ≡ (number, None) ∷ [] }
    ensures same { IsSameSeat place.old place.new }
    ensures back { place.new.me ≡ (place.old.me.0, (number, Some lane) ∷ []) }
{
    board.exchange(place, number, Some(lane));
}

/// Gives the turn of the lane back, and with it the slot.
pub(crate) fn give_turn(board: &Board, place: &mut Place, lane: usize)
    requires table { IsAtLanes board.now.table_id place.old }
    requires lane { (lane < board.now.table_id.slots) × (lane < 1024) }
    requires turn { (0 < place.old.me.0.shape.lanes) × (place.old.me.0.turn ≡ turn_word lane) }
    requires out { IsOut lane place.old.me }
    ensures same { IsSameSeat place.old place.new }
    ensures gave { place.new.me ≡ (turned place.old.me.0 0 [], []) }
{
    board.swap::<GivesTurn>(place, lane + 1, 0);
}
