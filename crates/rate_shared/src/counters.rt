//! The counters that callers in many threads share.
ghost use Rattle.std.specs.Prelude.{◌≡◌, ◌+◌, ◌<◌, length};
ghost use Rattle.rate_shared.specs.Hands.{IsShape};

use crate::plays::{LooksUp, Meets, Notes};
use crate::rule::Shelf;
use crate::seen::{Held, Note, Seen};
use crate::stepping::step_on;
use crate::turns::{give_turn, put_lane, take_lane, take_turn};
use rate_plain::{Ask, Counted, StepFault, lane_of};
use std::alloc::Global;
use std::sync::Wait;

/// The greatest number of steps that a caller takes: 2^40.
pub const MOST_OWN: u64 = 1 << 40;

/// Lanes that many callers count with. There is one history of all steps, which nobody keeps.
#[derive(Drop)]
pub struct Counters {
    pub(crate) table: Shelf,
    pub(crate) lanes: u32,
    /// A zero for each caller.
    pub(crate) own: Vec<u64>,
    ghost lane_count: { lanes ≡ table.shared.key.lanes },
    ghost slots: { table.shared.table_id.slots ≡ table.shared.key.lanes },
    ghost words: { table.shared.table_id.words ≡ table.shared.table_id.slots + 1 },
    ghost shape: { IsShape table.shared.key },
    ghost own_count: { length own.items ≡ table.shared.key.callers },
}

impl Counters {
    ghost use Rattle.std.specs.Prelude.{◌≡◌, ◌^◌, ◌↔◌, IsErrOf};
    ghost use mathlib.Core.List.{IsPrefix};
    ghost use Rattle.rate_shared.specs.Promise.{Grows};
    ghost use Rattle.rate_shared.specs.Callers.{history_of, own_history, noted_of, history_of_held, shape_of, IsSameCaller};
    ghost use Rattle.rate_shared.specs.Callers.{IsOf, IsNoteOf, IsHeldOf, TakesStep};

    /// Answers by the window rule over all steps so far, and counts the step at the position told. A refusal changes
    /// nothing. Waits for its lane alone.
    pub fn step<R: Wait>(
        &self,
        rt: &R,
        alloc: Global,
        seen: &mut Seen,
        ask: &Ask,
    ) -> Result<Counted, StepFault>
        requires of { IsOf self.now seen.old }
        ensures same { IsSameCaller seen.old seen.new }
        ensures counted { TakesStep (shape_of self.now) seen.old seen.new ask.now result }
        ensures spent { IsErrOf result StepFault.Spent ↔ (length (own_history seen.old) ≡ 2 ^ 40) }
    {
        if seen.taken == MOST_OWN {
            return Err(StepFault::Spent);
        }
        let lane = lane_of(&ask.key, self.lanes) as usize;
        let board = &self.table.shared;
        let counted = step_on(rt, board, &mut seen.seat, alloc, lane, seen.caller, ask)?;
        seen.taken += 1;
        Ok(counted)
    }

    /// Sees all steps so far, and tells how many they are. Takes no memory, and doesn't wait.
    pub fn catch_up(&self, seen: &mut Seen) -> u64
        requires of { IsOf self.now seen.old }
        ensures same { IsSameCaller seen.old seen.new }
        ensures grows { Grows (shape_of self.now) seen.old.caller (history_of seen.old) (history_of seen.new) }
        ensures length { result ≡ length (history_of seen.new) }
    {
        self.table.shared.load::<LooksUp>(&mut seen.seat, 0)
    }

    /// A note of what was seen. Takes no memory, and doesn't wait.
    pub fn note(&self, seen: &mut Seen) -> Note
        requires of { IsOf self.now seen.old }
        ensures same { IsSameCaller seen.old seen.new }
        ensures grows { Grows (shape_of self.now) seen.old.caller (history_of seen.old) (history_of seen.new) }
        ensures of { IsNoteOf self.now result }
        ensures note { noted_of result ≡ history_of seen.new }
    {
        let seat = self.table.shared.split_seat::<Notes>(&mut seen.seat);
        Note { seat }
    }

    /// Sees what the note's maker had seen, and all steps so far, and tells how many they are. Takes no memory, and
    /// doesn't wait.
    pub fn meet(&self, seen: &mut Seen, note: Note) -> u64
        requires of { IsOf self.now seen.old }
        requires note { IsNoteOf self.now note }
        ensures same { IsSameCaller seen.old seen.new }
        ensures grows { Grows (shape_of self.now) seen.old.caller (history_of seen.old) (history_of seen.new) }
        ensures note { IsPrefix (noted_of note) (history_of seen.new) }
        ensures length { result ≡ length (history_of seen.new) }
    {
        let board = &self.table.shared;
        let Note { seat } = note;
        board.join_seat::<Meets>(&mut seen.seat, seat);
        board.load::<LooksUp>(&mut seen.seat, 0)
    }

    /// Takes the turn of the lane, and the lane, as a step does first. While the `Held` stands, and once it was
    /// dropped, steps on other lanes go on. Waits for the lane; takes no memory.
    pub fn hold<R: Wait>(&self, rt: &R, seen: Seen, lane: u32) -> Held
        requires of { IsOf self.now seen }
        requires lane { lane < (shape_of self.now).lanes }
        ensures of { IsHeldOf self.now result }
        ensures caller { result.caller ≡ seen.caller }
        ensures seen { history_of_held result ≡ history_of seen }
        ensures lane { result.number ≡ lane }
    {
        let Seen {
            mut seat,
            caller,
            taken,
        } = seen;
        let board = &self.table.shared;
        take_turn(rt, board, &mut seat, lane as usize);
        let held = take_lane(board, &mut seat, lane as usize);
        Held {
            seat,
            caller,
            taken,
            number: lane,
            lane: held,
        }
    }

    /// Puts the lane back, and gives back the turn and the caller. Takes no memory, and doesn't wait.
    pub fn release(&self, held: Held) -> Seen
        requires of { IsHeldOf self.now held }
        ensures of { IsOf self.now result }
        ensures caller { result.caller ≡ held.caller }
        ensures seen { history_of result ≡ history_of_held held }
    {
        let Held {
            mut seat,
            caller,
            taken,
            number,
            lane,
        } = held;
        let board = &self.table.shared;
        put_lane(board, &mut seat, number as usize, lane);
        give_turn(board, &mut seat, number as usize);
        Seen {
            seat,
            caller,
            taken,
        }
    }
}
