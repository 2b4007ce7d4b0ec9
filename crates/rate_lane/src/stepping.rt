ghost use Rattle.std.specs.Prelude.{◌≡◌, ◌+◌, ◌<◌, ◌≤◌, false, length, None, IfOk, IsOk, OnOk, OnErr, IfSome, IfNone};
ghost use Rattle.indexmap.specs.IndexMap.{spare, IsUnchanged};
ghost use Rattle.rate_lane.specs.KeyState.{dead_state};
ghost use Rattle.rate_lane.specs.Index.{state_of, IsOrdered, live_at};
ghost use Rattle.rate_lane.specs.Stepping.{needs_memory, StepsLive, AddsState, TakesStep, GrowsRings};

use crate::index::{Index, sweep};
use crate::key_state::KeyState;
use crate::order::Order;
use edge_base::{Memory, Moment};
use rate_plain::{Answer, Ask, Key};
use std::alloc::Global;

/// A key that may be added, with its state.
pub type Fresh = (Key, KeyState);

/// Takes a step of a key that is live. The key is looked up once.
fn step_live(index: &mut Index, ask: &Ask, at: Moment) -> Result<Option<Answer>, Memory>
    ensures live { IfOk result (λ told. IfSome told (StepsLive index.old.entries index.new.entries ask.now at)) }
    ensures dead { IfOk result (λ told. IfNone told (live_at at (state_of index.old.entries ask.now.key) ≡ None)) }
    ensures unchanged { IfOk result (λ told. IfNone told (IsUnchanged index.old index.new)) }
    ensures err { OnErr result (IsUnchanged index.old index.new) }
    ensures no_memory { needs_memory index.old.entries ask.now at ≡ false → IsOk result }
{
    let Some(state) = index.get_mut(&ask.key) else {
        return Ok(None);
    };
    if state.live_until() <= at.get() {
        return Ok(None);
    }
    let answer = state.take(ask, at)?;
    Ok(Some(answer))
}

/// A copy of a key with an empty ring, and a place for it.
fn fresh(index: &mut Index, alloc: Global, key: &Key) -> Result<Fresh, Memory>
    ensures ok { IfOk result (λ fresh. fresh ≡ (key.now, dead_state)) }
    ensures place { OnOk result (1 ≤ spare index.new) }
    ensures some_threshold { OnOk result (1 ≤ key.now.threshold) }
    ensures same { IsUnchanged index.old index.new }
{
    let copy = key.copy(alloc)?;
    let state = KeyState::new(alloc, key)?;
    index.reserve(1)?;
    Ok((copy, state))
}

/// Adds a key, and answers its first step.
fn add(index: &mut Index, order: &mut Order, fresh: Fresh, at: Moment) -> Answer
    requires ordered { IsOrdered index.old.entries order.old }
    requires free { length index.old.entries < length order.old }
    requires place { 1 ≤ spare index.old }
    requires dead { fresh.1 ≡ dead_state }
    requires absent { state_of index.old.entries fresh.0 ≡ None }
    ensures added { AddsState index.old.entries index.new.entries fresh.0 at result }
    ensures ordered { IsOrdered index.new.entries order.new }
    ensures places { length order.new ≡ length order.old }
{
    let (key, mut state) = fresh;
    let answer = state.step(&key, true, at);
    order.set(index.len(), state.live_until());
    if index.insert(key, state).is_err() {
        unreachable!();
    }
    answer
}

/// Takes a step of a key that isn't live: first the memory for it, where it adds, then out what is dead, and then the answer.
fn step_dead(
    index: &mut Index,
    order: &mut Order,
    alloc: Global,
    ask: &Ask,
    at: Moment,
) -> Result<Answer, Memory>
    requires ordered { IsOrdered index.old.entries order.old }
    requires dead { live_at at (state_of index.old.entries ask.now.key) ≡ None }
    ensures ordered { IsOrdered index.new.entries order.new }
    ensures places { length order.new ≡ length order.old }
    ensures ok { IfOk result (TakesStep index.old.entries index.new.entries (length order.old) ask.now at) }
    ensures rings { OnOk result (GrowsRings index.old.entries index.new.entries ask.now at) }
    ensures err { OnErr result ((index.new.entries ≡ index.old.entries) × (order.new ≡ order.old)) }
    ensures no_memory { ask.now.adds ≡ false → IsOk result }
{
    if !ask.adds {
        sweep(index, order, at);
        return Ok(Answer::Pass);
    }
    let fresh = fresh(index, alloc, &ask.key)?;
    sweep(index, order, at);
    if index.len() >= order.places() {
        return Ok(Answer::Full);
    }
    Ok(add(index, order, fresh, at))
}

/// Takes a step at its moment. All the memory that it may need is taken before anything changes, and what is dead goes out.
pub fn take_step(
    index: &mut Index,
    order: &mut Order,
    alloc: Global,
    ask: &Ask,
    at: Moment,
) -> Result<Answer, Memory>
    requires { IsOrdered index.old.entries order.old }
    ensures ordered { IsOrdered index.new.entries order.new }
    ensures places { length order.new ≡ length order.old }
    ensures ok { IfOk result (TakesStep index.old.entries index.new.entries (length order.old) ask.now at) }
    ensures rings { OnOk result (GrowsRings index.old.entries index.new.entries ask.now at) }
    ensures err { OnErr result ((index.new.entries ≡ index.old.entries) × (order.new ≡ order.old)) }
    ensures no_memory { needs_memory index.old.entries ask.now at ≡ false → IsOk result }
{
    let Some(answer) = step_live(index, ask, at)? else {
        return step_dead(index, order, alloc, ask, at);
    };
    sweep(index, order, at);
    Ok(answer)
}
