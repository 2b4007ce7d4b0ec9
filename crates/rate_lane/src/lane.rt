ghost use Rattle.std.specs.Prelude.{◌≡◌, ◌≤◌, length, max};
ghost use Rattle.rate_lane.specs.Index.{IsOrdered};

use crate::index::{Index, live_keys};
use crate::order::Order;
use crate::stepping::take_step;
use edge_base::{Memory, Moment};
use indexmap::IndexMap;
use rate_plain::{Answer, Ask, Key};
use std::alloc::Global;
use std::hash::RandomState;

/// The steps of one lane, of which it keeps what may still count: its live keys, in room for so many.
/// It stands for the list of all its steps, whatever callers took them.
#[derive(Drop)]
pub struct Lane {
    /// The latest moment of a step.
    moment: Moment,
    index: Index,
    order: Order,
    ghost ordered: { IsOrdered index.entries order },
    ghost few: { length order ≤ 65536 },
}

/// The later of two moments.
fn later(moment: Moment, other: Moment) -> Moment
    ensures { result ≡ max moment other }
{
    if moment < other { other } else { moment }
}

impl Lane {
    ghost use Rattle.std.specs.Prelude.{◌≡◌, ◌≤◌, [], IfOk, OnOk, OnErr};
    ghost use Rattle.rate_lane.specs.Lane.{cap_of, has_room_for, IsLaneOf, IsSame, StepsLane, GrowsAsFull, SparesMemory, CountsLive};

    /// A lane without steps, with room for so many live keys, which are hashed by this.
    pub fn new(alloc: Global, cap: u32, hasher: RandomState) -> Result<Lane, Memory>
        requires { (1 ≤ cap) × (cap ≤ 65536) }
        ensures cap { IfOk result (λ lane. cap_of lane ≡ cap) }
        ensures empty { IfOk result (λ lane. IsLaneOf lane []) }
    {
        let places = cap as usize;
        let index = IndexMap::with_capacity_and_hasher(alloc, places, hasher)?;
        let order = Order::new(alloc, places)?;
        let Some(moment) = Moment::of(0) else {
            unreachable!();
        };
        Ok(Lane {
            moment,
            index,
            order,
        })
    }

    /// Answers by the window rule over the list of all steps, and takes the step. A refusal changes nothing.
    /// Takes no memory where the ask doesn't add, nor where its key is live with room.
    pub fn step(&mut self, alloc: Global, ask: &Ask) -> Result<Answer, Memory>
        ensures steps { StepsLane self.old self.new ask.now result }
        ensures cap { cap_of self.new ≡ cap_of self.old }
        ensures err { OnErr result (IsSame self.old self.new) }
        ensures rings { OnOk result (GrowsAsFull self.old self.new ask.now) }
        ensures no_memory { SparesMemory self.old ask.now result }
    {
        let at = later(self.moment, ask.asked);
        let answer = take_step(&mut self.index, &mut self.order, alloc, ask, at)?;
        self.moment = at;
        Ok(answer)
    }

    /// Whether the lane keeps the key and its ring has more places than moments. Takes no memory.
    pub fn room(&self, key: &Key) -> bool
        ensures { result ≡ has_room_for self.now key.now }
    {
        let Some(state) = self.index.get(key) else {
            return false;
        };
        state.has_room()
    }

    /// How many keys are live at this moment or, where the lane's own is later, at that. Takes no memory.
    pub fn live_keys(&self, at: Moment) -> u32
        ensures { CountsLive self.now at result }
    {
        let at = later(self.moment, at);
        live_keys(&self.index, at.get()) as u32
    }
}
