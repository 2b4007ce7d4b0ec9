//! The world, event by event.

ghost use Rattle.std.specs.Prelude.{◌≡◌, ◌+◌, ◌^◌, ◌↔◌, ℕ, [], slice_get, slice_set, Some, option_and_then, option_copied};
ghost use Rattle.std.specs.Prelude.{OnOk, OnErr, IfOk, IfErr, IsErrOf};
ghost use Rattle.std.specs.Arc.{arc_value};
ghost use Rattle.serde_json.specs.View.{view};
ghost use Rattle.config_read.specs.Answered.{StandsFor};
ghost use Rattle.judge_core.specs.Values.{Listed};
ghost use Rattle.ruleset_model.specs.ConfigParts.{ConfigParts};
ghost use Rattle.edge_core.specs.World.{IsTelling, opening_world};
ghost use Rattle.edge_core.specs.Stands.{DeploysTo, HasAsked, IsAnswered, IsSomewhere, IsTurnedDown, IsWorld, LeavesAt, StepsTo, Wherever, asked_now, terms_of};
ghost use Rattle.edge_core.specs.Steps.{IsSpent};
ghost use Rattle.edge_core.specs.declared.caller.Caller.TheVariants as callers_;
ghost use Rattle.edge_core.specs.declared.event.Event.TheVariants as events;

use crate::caller::Caller;
use crate::event::{Event, Shown};
use crate::places::{exchange, idle_callers, put};
use crate::version::Version;
use config_read::{ConfigFault, config_of};
use edge_base::{Memory, Moment, Reply, Request};
use rate_plain::{Answer, Ask, StepFault, Tally};
use ruleset_model::Config;
use serde_json::Value;
use std::alloc::Global;

/// Callers, the version in force, and the counter of all steps.
#[derive(Drop)]
pub struct World<T> {
    pub tally: T,
    pub version: Version,
    pub callers: Vec<Caller>,
}

/// The step that a caller asks, if it is there and asks one.
fn asked_at(callers: &[Caller], caller: u32) -> Option<&Ask>
    ensures { option_copied result ≡ option_and_then asked_now (slice_get callers.now caller) }
{
    match callers.get(caller as usize) {
        Some(one) => one.asked(),
        None => None,
    }
}

impl<T: Tally + Drop> World<T> {
    /// So many callers, none with a request, and the empty configuration in force. The counter has counted nothing.
    pub fn new(alloc: Global, callers: u32, tally: T) -> Result<World<T>, Memory>
        ensures { (meaning : ConfigParts → Listed) (lanes cap : ℕ) → T.stands tally lanes cap [] → IfOk result (λ world. IsWorld T.stands (terms_of meaning lanes cap) world (opening_world callers)) }
    {
        Ok(World {
            tally,
            version: Version::opening(alloc)?,
            callers: idle_callers(alloc, callers)?,
        })
    }

    /// Takes a caller's state out, where there is such a caller; it is idle then.
    fn take_out(&mut self, caller: u32) -> Option<Caller>
        ensures taken { result ≡ slice_get self.old.callers.items caller }
        ensures rest { self.new.callers.items ≡ slice_set self.old.callers.items caller callers_.Idle }
        ensures tally { self.new.tally ≡ self.old.tally }
        ensures version { self.new.version ≡ self.old.version }
    {
        exchange(&mut self.callers, caller as usize, Caller::Idle)
    }

    /// Puts a caller's state in its place, where there is such a caller.
    fn put_back(&mut self, caller: u32, state: Caller)
        ensures callers { self.new.callers.items ≡ slice_set self.old.callers.items caller state }
        ensures tally { self.new.tally ≡ self.old.tally }
        ensures version { self.new.version ≡ self.old.version }
    {
        put(&mut self.callers, caller as usize, state);
    }

    /// A request comes.
    fn arrive(&mut self, caller: u32, request: Request) -> Shown
        ensures { (meaning : ConfigParts → Listed) → Wherever T.stands meaning self.old (StepsTo T.stands (events.Arrive caller request) self.new result) }
    {
        let Some(state) = self.take_out(caller) else {
            return Shown::Unfit;
        };
        let (state, shown) = state.arrive(request);
        self.put_back(caller, state);
        shown
    }

    /// The version in force is picked.
    fn pick(&mut self, alloc: Global, caller: u32) -> Result<Shown, Memory>
        ghost meaning: { ConfigParts → Listed }
        requires { IsTelling meaning }
        ensures ok { IfOk result (λ shown. Wherever T.stands meaning self.old (StepsTo T.stands (events.Pick caller) self.new shown)) }
        ensures err { OnErr result (Wherever T.stands meaning self.old (LeavesAt T.stands (events.Pick caller) self.new StepFault.Memory)) }
    {
        let Some(state) = self.take_out(caller) else {
            return Ok(Shown::Unfit);
        };
        let (state, shown) = state.pick(alloc, &self.version)?;
        self.put_back(caller, state);
        Ok(shown)
    }

    /// A caller is told the answer to its step.
    fn answer(&mut self, alloc: Global, caller: u32, answer: Answer) -> Result<(), Memory>
        ghost meaning: { ConfigParts → Listed }
        requires { (state : Caller) × (slice_get self.old.callers.items caller ≡ Some state) × HasAsked meaning state }
        ensures ok { OnOk result (IsAnswered meaning answer caller self.old.callers.items self.new.callers.items) }
        ensures err { OnErr result (self.new.callers.items ≡ slice_set self.old.callers.items caller callers_.Idle) }
        ensures tally { self.new.tally ≡ self.old.tally }
        ensures version { self.new.version ≡ self.old.version }
    {
        let Some(state) = self.take_out(caller) else {
            return Ok(());
        };
        let state = state.answer(alloc, answer)?;
        self.put_back(caller, state);
        Ok(())
    }

    /// The step that is asked is taken, and answered.
    fn count(&mut self, alloc: Global, caller: u32) -> Result<Shown, StepFault>
        ghost meaning: { ConfigParts → Listed }
        requires { IsSomewhere T.stands meaning self.old }
        ensures ok { IfOk result (λ shown. Wherever T.stands meaning self.old (StepsTo T.stands (events.Count caller) self.new shown)) }
        ensures err { IfErr result (λ why. Wherever T.stands meaning self.old (LeavesAt T.stands (events.Count caller) self.new why)) }
        ensures spent { Wherever T.stands meaning self.old (λ terms parts. IsErrOf result StepFault.Spent ↔ IsSpent terms parts (events.Count caller)) }
    {
        let Some(ask) = asked_at(&self.callers, caller) else {
            return Ok(Shown::Unfit);
        };
        let position = self.tally.length();
        let answer = match self.tally.step(alloc, caller, ask) {
            Ok(answer) => answer,
            Err(why) => {
                self.put_back(caller, Caller::Idle);
                return Err(why);
            }
        };
        self.answer(alloc, caller, answer)?;
        Ok(Shown::Counted(position, answer))
    }

    /// What is done is shown.
    fn finish(&mut self, alloc: Global, caller: u32) -> Result<Shown, Memory>
        ensures ok { IfOk result (λ shown. (meaning : ConfigParts → Listed) → Wherever T.stands meaning self.old (StepsTo T.stands (events.Done caller) self.new shown)) }
        ensures err { OnErr result ((meaning : ConfigParts → Listed) → Wherever T.stands meaning self.old (LeavesAt T.stands (events.Done caller) self.new StepFault.Memory)) }
    {
        let Some(state) = self.take_out(caller) else {
            return Ok(Shown::Unfit);
        };
        let (state, shown) = state.finish(alloc)?;
        self.put_back(caller, state);
        Ok(shown)
    }

    /// A reply comes, at a moment.
    fn back(
        &mut self,
        alloc: Global,
        caller: u32,
        reply: Reply,
        at: Moment,
    ) -> Result<Shown, Memory>
        ghost meaning: { ConfigParts → Listed }
        requires { IsTelling meaning }
        ensures ok { IfOk result (λ shown. Wherever T.stands meaning self.old (StepsTo T.stands (events.Back caller reply at) self.new shown)) }
        ensures err { OnErr result (Wherever T.stands meaning self.old (LeavesAt T.stands (events.Back caller reply at) self.new StepFault.Memory)) }
    {
        let Some(state) = self.take_out(caller) else {
            return Ok(Shown::Unfit);
        };
        let (state, shown) = state.back(alloc, reply, at)?;
        self.put_back(caller, state);
        Ok(shown)
    }

    /// The configuration becomes the next version.
    fn publish(&mut self, alloc: Global, config: Config) -> Result<Shown, StepFault>
        ensures number { IfOk result (λ shown. (self.new.version.number ≡ self.old.version.number + 1) × (shown ≡ Shown.Deployed self.new.version.number)) }
        ensures config { OnOk result (arc_value self.new.version.config ≡ config) }
        ensures tally { self.new.tally ≡ self.old.tally }
        ensures callers { self.new.callers ≡ self.old.callers }
        ensures err { OnErr result (self.new ≡ self.old) }
        ensures spent { IsErrOf result StepFault.Spent ↔ (self.old.version.number ≡ 2 ^ 40) }
    {
        if self.version.is_last() {
            return Err(StepFault::Spent);
        }
        self.version = self.version.next(alloc, config)?;
        Ok(Shown::Deployed(self.version.number))
    }

    /// A document is deployed, or it is refused.
    fn deploy(&mut self, alloc: Global, value: &Value) -> Result<Shown, StepFault>
        ensures ok { IfOk result (λ shown. (meaning : ConfigParts → Listed) → Wherever T.stands meaning self.old (DeploysTo T.stands (view value.now) self.new shown)) }
        ensures err { OnErr result (self.new ≡ self.old) }
        ensures spent { IsErrOf result StepFault.Spent → ((config : ConfigParts) × StandsFor (view value.now) config) × (self.old.version.number ≡ 2 ^ 40) }
        ensures full { self.old.version.number ≡ 2 ^ 40 → IfOk result IsTurnedDown }
    {
        match config_of(alloc, value) {
            Ok(config) => self.publish(alloc, config),
            Err(ConfigFault::Refused { place, cause }) => Ok(Shown::Refused(place, cause)),
            Err(ConfigFault::Memory) => Err(StepFault::Memory),
        }
    }

    /// What the event comes to. After a fault the caller's request is given up, and a step that was taken stands; a
    /// deployment that ends in a fault changes nothing.
    pub fn apply(&mut self, alloc: Global, event: Event) -> Result<Shown, StepFault>
        ghost meaning: { ConfigParts → Listed }
        requires telling { IsTelling meaning }
        requires somewhere { IsSomewhere T.stands meaning self.old }
        ensures ok { IfOk result (λ shown. Wherever T.stands meaning self.old (StepsTo T.stands event self.new shown)) }
        ensures err { IfErr result (λ why. Wherever T.stands meaning self.old (LeavesAt T.stands event self.new why)) }
        ensures spent { IsErrOf result StepFault.Spent → Wherever T.stands meaning self.old (λ terms parts. IsSpent terms parts event) }
        ensures full { Wherever T.stands meaning self.old (λ terms parts. IsSpent terms parts event → IfOk result IsTurnedDown) }
    {
        match event {
            Event::Arrive(caller, request) => Ok(self.arrive(caller, request)),
            Event::Pick(caller) => Ok(self.pick(alloc, caller)?),
            Event::Count(caller) => self.count(alloc, caller),
            Event::Done(caller) => Ok(self.finish(alloc, caller)?),
            Event::Back(caller, reply, at) => Ok(self.back(alloc, caller, reply, at)?),
            Event::Deploy(value) => self.deploy(alloc, &value),
        }
    }
}
