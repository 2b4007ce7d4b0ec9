//! New counters: lanes without steps, and callers that have seen nothing.
ghost use Rattle.std.specs.Prelude.{◌≡◌, ◌+◌, ◌<◌, ◌≤◌, [], All, length, replicate, IfOk};
ghost use Rattle.rate_shared.specs.Rule.{maker};
ghost use Rattle.rate_shared.specs.Hands.{IsNew, IsShape};
ghost use Rattle.rate_shared.specs.Callers.{AllOpen};

use crate::counters::Counters;
use crate::plays::NextCaller;
use crate::rule::{Board, Place, Shape, Shelf};
use crate::seen::{Seen, Seens};
use atomic_table::Table;
use edge_base::Memory;
use rate_lane::Lane;
use std::alloc::Global;
use std::hash::RandomState;

/// A lane without steps for each of the hashers, in its slot.
fn slots_of(alloc: Global, cap: u32, hashers: Vec<RandomState>) -> Result<Vec<Option<Lane>>, Memory>
    requires { (1 ≤ cap) × (cap ≤ 65536) }
    ensures count { IfOk result (λ slots. length slots.items ≡ length hashers.items) }
    ensures new { IfOk result (λ slots. All (IsNew cap) slots.items) }
{
    let mut slots = Vec::with_capacity(alloc, hashers.len())?;
    for hasher in hashers {
        slots.push(Some(Lane::new(alloc, cap, hasher)?))?;
    }
    Ok(slots)
}

/// All callers, each with the next number of the first seat.
fn seens_of(alloc: Global, board: &Board, place: &mut Place, callers: u32) -> Result<Seens, Memory>
    requires table { (place.old.table_id ≡ board.now.table_id) × (0 < board.now.table_id.words) }
    requires shape { IsShape board.now.key × (callers ≡ board.now.key.callers) }
    requires first { place.old.me ≡ (maker board.now.key, []) }
    ensures count { IfOk result (λ seens. length seens.items ≡ callers) }
    ensures fresh { IfOk result (λ seens. AllOpen board.now.table_id board.now.key seens.items) }
{
    let mut seens = Vec::with_capacity(alloc, callers as usize)?;
    for caller in 0..callers {
        let seat = board.split_seat::<NextCaller>(place);
        seens.push(Seen {
            seat,
            caller,
            taken: 0,
        })?;
    }
    Ok(seens)
}

impl Counters {
    ghost use Rattle.rate_shared.specs.Callers.{IsMade};

    /// A lane without steps for each of the hashers, with room for so many live keys each, and so many callers.
    pub fn new(
        alloc: Global,
        cap: u32,
        callers: u32,
        hashers: Vec<RandomState>,
    ) -> Result<(Counters, Seens), Memory>
        requires lanes { (1 ≤ length hashers.items) × (length hashers.items ≤ 1024) }
        requires cap { (1 ≤ cap) × (cap ≤ 65536) }
        requires callers { (1 ≤ callers) × (callers ≤ 1024) }
        ensures { IfOk result (λ made. IsMade (length hashers.items) cap callers made.0 made.1.items) }
    {
        let lanes = hashers.len() as u32;
        let shape = Shape {
            lanes,
            cap,
            callers,
        };
        let slots = slots_of(alloc, cap, hashers)?;
        let words = Vec::from_elem(alloc, 0u64, lanes as usize + 1)?;
        let own = Vec::from_elem(alloc, 0u64, callers as usize)?;
        let (table, mut first) = table_of(alloc, words.as_slice(), slots, &shape)?;
        let seens = seens_of(alloc, &table.shared, &mut first, callers)?;
        let counters = Counters { table, lanes, own };
        Ok((counters, seens))
    }
}

/// The table of these lanes.
fn table_of(
    alloc: Global,
    words: &[u64],
    slots: Vec<Option<Lane>>,
    shape: &Shape,
) -> Result<(Shelf, Place), Memory>
    requires words { words.now ≡ replicate (shape.now.lanes + 1) 0 }
    requires slots { (length slots.items ≡ shape.now.lanes) × All (IsNew shape.now.cap) slots.items }
    requires shape { IsShape shape.now }
    ensures table { IfOk result (λ t. (t.1.table_id ≡ t.0.shared.table_id) × (t.0.shared.key ≡ shape.now)) }
    ensures slots { IfOk result (λ t. t.0.shared.table_id.slots ≡ shape.now.lanes) }
    ensures words { IfOk result (λ t. t.0.shared.table_id.words ≡ t.0.shared.table_id.slots + 1) }
    ensures first { IfOk result (λ t. t.1.me ≡ (maker shape.now, [])) }
{
    match Table::new(alloc, words, slots, shape) {
        Ok(made) => Ok(made),
        Err(_refused) => Err(Memory),
    }
}
