ghost use Rattle.std.specs.Prelude.{◌≡◌, ◌+◌, ◌<◌, ◌≤◌, length, slice_index_or};
ghost use Rattle.std.specs.List.{IsDistinct};
ghost use Rattle.std.specs.Map.{keys_of};
ghost use Rattle.indexmap.specs.IndexMap.{spare};
ghost use Rattle.rate_plain.specs.KeyParts.{KeyParts};
ghost use Rattle.rate_plain.specs.Keys.{same_key};
ghost use Rattle.rate_lane.specs.Index.{state_of, IsOrdered, low_count, live_at, live_among, AreLiveAlike};

use crate::key_state::KeyState;
use crate::order::{NEVER, Order};
use edge_base::Moment;
use indexmap::IndexMap;
use rate_plain::Key;
use std::hash::RandomState;

/// The keys of a lane with their states.
pub type Index = IndexMap<Key, KeyState, RandomState>;

/// Takes out the key at this place if it is dead, and else notes until when it is live.
fn settle(index: &mut Index, order: &mut Order, place: usize, at: Moment)
    requires ordered { IsOrdered index.old.entries order.old }
    requires low { (place < length order.old) × (slice_index_or order.old place 0 ≤ at) }
    ensures ordered { IsOrdered index.new.entries order.new }
    ensures places { length order.new ≡ length order.old }
    ensures live { AreLiveAlike at index.old.entries index.new.entries }
    ensures fewer { low_count at order.new + 1 ≡ low_count at order.old }
    ensures spare { spare index.old ≤ spare index.new }
{
    let until = index[place].live_until();
    if at.get() < until {
        order.set(place, until);
    } else {
        let last = index.len() - 1;
        let moved = order.number(last);
        order.set(place, moved);
        order.set(last, NEVER);
        index.swap_remove_index(place);
    }
}

/// Takes out the keys that are dead. Looks only at those that may be.
pub fn sweep(index: &mut Index, order: &mut Order, at: Moment)
    requires ordered { IsOrdered index.old.entries order.old }
    ensures ordered { IsOrdered index.new.entries order.new }
    ensures places { length order.new ≡ length order.old }
    ensures kept { (key : KeyParts) → state_of index.new.entries key ≡ live_at at (state_of index.old.entries key) }
    ensures spare { spare index.old ≤ spare index.new }
{
    while let Some(place) = order.within(at.get()) {
        settle(index, order, place, at);
    }
}

/// How many of the keys are live at this moment.
pub fn live_keys(index: &Index, at: u64) -> usize
    ensures count { result ≡ live_among at index.now.entries }
    ensures within { result ≤ length index.now.entries }
    ensures unique { IsDistinct same_key (keys_of index.now.entries) }
{
    index
        .iter()
        .filter(|(_, state)| at < state.live_until())
        .count()
}
