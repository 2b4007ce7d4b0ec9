ghost use Rattle.std.specs.Prelude.{◌≡◌, ◌≤◌, ◌^◌, [], All, length, IfOk};
ghost use Rattle.rate_lane.specs.Lane.{cap_of, IsLaneOf};

use crate::lane::Lane;
use edge_base::Memory;
use rate_plain::{Answer, Ask, MOST_STEPS, StepFault, Tally, lane_of};
use std::alloc::Global;
use std::hash::RandomState;

/// Several lanes, each with the steps of its own keys.
/// It stands for the list of all their steps, and counts as one that keeps the whole list.
#[derive(Drop)]
pub struct Lanes {
    lanes: Vec<Lane>,
    /// How many steps were taken.
    steps: u64,
    ghost some: { 1 ≤ length lanes.items },
    ghost few: { length lanes.items ≤ 1024 },
    ghost within: { steps ≤ 2 ^ 50 },
}

/// A lane without steps for each of the hashers.
fn lanes_of(alloc: Global, cap: u32, hashers: Vec<RandomState>) -> Result<Vec<Lane>, Memory>
    requires { (1 ≤ cap) × (cap ≤ 65536) }
    ensures count { IfOk result (λ lanes. length lanes.items ≡ length hashers.items) }
    ensures empty { IfOk result (λ lanes. All (λ lane. (cap_of lane ≡ cap) × IsLaneOf lane []) lanes.items) }
{
    let mut lanes = Vec::with_capacity(alloc, hashers.len())?;
    for hasher in hashers {
        lanes.push(Lane::new(alloc, cap, hasher)?)?;
    }
    Ok(lanes)
}

impl Lanes {
    ghost use Rattle.std.specs.Prelude.{[], IfOk};
    ghost use Rattle.rate_lane.specs.Lanes.{AreLanesOf};

    /// A lane without steps for each of the hashers, with room for so many live keys each.
    pub fn new(alloc: Global, cap: u32, hashers: Vec<RandomState>) -> Result<Lanes, Memory>
        requires lanes { (1 ≤ length hashers.items) × (length hashers.items ≤ 1024) }
        requires cap { (1 ≤ cap) × (cap ≤ 65536) }
        ensures { IfOk result (λ lanes. AreLanesOf lanes (length hashers.items) cap []) }
    {
        let lanes = lanes_of(alloc, cap, hashers)?;
        Ok(Lanes { lanes, steps: 0 })
    }
}

impl Tally for Lanes {
    ghost use Rattle.rate_lane.specs.Lanes.{AreLanesOf};

    ghost stands = { AreLanesOf };

    fn step(&mut self, alloc: Global, _caller: u32, ask: &Ask) -> Result<Answer, StepFault> {
        if self.steps == MOST_STEPS {
            return Err(StepFault::Spent);
        }
        let place = lane_of(&ask.key, self.lanes.len() as u32) as usize;
        let answer = self.lanes[place].step(alloc, ask)?;
        self.steps += 1;
        Ok(answer)
    }

    fn length(&self) -> u64 {
        self.steps
    }
}
