//! The judging of a reply, turn by turn.

ghost use Rattle.std.specs.Prelude.{◌≡◌, Some, None, IfOk, IsErr};
ghost use Rattle.std.specs.Arc.{arc_value};
ghost use Rattle.judge_core.specs.Backing.{IsToldBack, MayTellBack, StandsForBack, TellsBackTurn};
ghost use Rattle.judge_core.specs.Backing.{back_opening, back_opened, EndsSoon, CountsOn, BacksOn, BackProceeds};
ghost use Rattle.judge_core.specs.Values.{Listed, AreTold};

use crate::carried::State;
use crate::changing::unchanged;
use crate::counting::{KeptAsk, next_count};
use crate::judging::Judged;
use crate::kept::{KeptCount, KeptCounts};
use crate::outcome::{Asked, Place, Ran, Where};
use crate::running::{resume, run};
use edge_base::{Memory, Moment, Reply, Request};
use rate_plain::{Answer, Ask};
use ruleset_model::{Config, Skips};
use sqlite_items::Items;
use std::alloc::Global;
use std::sync::Arc;

/// The number of the phase of a reply.
const REPLY_PHASE: u8 = 7;

/// What comes next: a step is asked, or the reply is done.
#[derive(Drop)]
pub enum BackTurn {
    Count(Ask),
    Done(Reply),
}

/// What asked the last step: nothing so far; a rule that counts by the reply, with the place behind it; or a rule of
/// the phase.
#[derive(Clone, Copy)]
pub enum Stage {
    Begins,
    Counted(usize),
    Walked(Asked),
}

/// How the judging of a reply came to a stop: at a rule that counts by the reply, at a rule of the phase, or at its
/// end.
#[derive(Drop)]
pub enum Backed {
    Counts(KeptAsk),
    Asks(Ask, Asked),
    Ended,
}

/// The judging of a reply under way.
#[derive(Drop)]
pub struct Backing {
    pub config: Arc<Config>,
    pub at: Moment,
    pub kept: KeptCounts,
    pub stage: Stage,
    pub state: State,
}

/// The judging of a reply. Once memory was wanted, or it is done, it is over.
#[derive(Drop)]
pub struct Back {
    backing: Option<Backing>,
}

/// What is carried at first. Takes no memory.
fn back_opened(alloc: Global, request: Request, reply: Reply, skips: Skips) -> State
    ensures { result ≡ back_opened request reply skips }
{
    State {
        request,
        reply: Some(reply),
        earlier: Some(skips),
        skipping: Items::new(alloc),
        changes: unchanged(alloc),
        noted: Items::new(alloc),
        kept: Items::new(alloc),
    }
}

/// How the judging of the phase came to a stop.
fn ended_or_asked(ran: Ran) -> Backed
    ensures { EndsSoon ran result }
{
    match ran {
        Ran::Asks(ask, asked) => Backed::Asks(ask, asked),
        Ran::Closed(_, _) | Ran::Passed => Backed::Ended,
    }
}

/// From a rule on that counts by the reply.
#[tactic(auto, using(crate::proofs::BackLemmas::stopped))]
fn count_on(
    alloc: Global,
    config: &Config,
    at: Moment,
    kept: &[KeptCount],
    from: usize,
    state: &mut State,
) -> Result<Backed, Memory>
    ghost listed: { Listed }
    requires told { AreTold listed config.now }
    ensures { IfOk result (CountsOn listed config.now at kept.now from state.old state.new) }
{
    if let Some(next) = next_count(alloc, config, at, kept, from, state)? {
        return Ok(Backed::Counts(next));
    }
    let phase = Place {
        phase: REPLY_PHASE,
        at: Where::Between,
    };
    Ok(ended_or_asked(run(alloc, config, phase, state)?))
}

/// On from the stage, by the answer.
#[tactic(auto, using(crate::proofs::BackLemmas::stopped))]
fn back_on(
    alloc: Global,
    config: &Config,
    at: Moment,
    kept: &[KeptCount],
    stage: Stage,
    answer: Option<Answer>,
    state: &mut State,
) -> Result<Backed, Memory>
    ghost listed: { Listed }
    requires told { AreTold listed config.now }
    ensures { IfOk result (BacksOn listed config.now at kept.now stage answer state.old state.new) }
{
    let asked = match stage {
        Stage::Begins => return count_on(alloc, config, at, kept, 0, state),
        Stage::Counted(next) => return count_on(alloc, config, at, kept, next, state),
        Stage::Walked(asked) => asked,
    };
    match answer {
        Some(answer) => Ok(ended_or_asked(resume(alloc, config, asked, answer, state)?)),
        None => count_on(alloc, config, at, kept, 0, state),
    }
}

/// On until a step is asked or the judging ends.
fn proceed_back(
    alloc: Global,
    backing: &mut Backing,
    answer: Option<Answer>,
) -> Result<Backed, Memory>
    ghost listed: { Listed }
    requires told { AreTold listed (arc_value backing.old.config) }
    ensures goes { IfOk result (BackProceeds listed answer backing.old backing.new) }
    ensures config { backing.new.config ≡ backing.old.config }
    ensures at { backing.new.at ≡ backing.old.at }
    ensures kept { backing.new.kept ≡ backing.old.kept }
{
    let config: &Config = &backing.config;
    let stage = backing.stage;
    back_on(
        alloc,
        config,
        backing.at,
        backing.kept.as_slice(),
        stage,
        answer,
        &mut backing.state,
    )
}

/// The reply at the end.
fn reply_of(backing: Backing) -> Result<Reply, Memory>
    ensures { IfOk result (λ reply. backing.state.reply ≡ Some reply) }
{
    let Backing { state, .. } = backing;
    let State { reply, .. } = state;
    match reply {
        Some(reply) => Ok(reply),
        None => Err(Memory),
    }
}

impl Back {
    /// The judging of a reply that came at a moment, by what was judged of its request. Takes no memory.
    pub fn start(alloc: Global, judged: Judged, reply: Reply, at: Moment) -> Back
        ensures stands { (listed : Listed) → StandsForBack listed (back_opening judged reply at) result }
        ensures told { (listed : Listed) → AreTold listed (arc_value judged.config) → IsToldBack listed result }
        ensures may { MayTellBack None result }
    {
        let state = back_opened(alloc, judged.request, reply, judged.skips);
        Back {
            backing: Some(Backing {
                config: judged.config,
                at,
                kept: judged.kept,
                stage: Stage::Begins,
                state,
            }),
        }
    }

    /// The next turn. The first is told no answer, each later one the answer to the step that was asked.
    pub fn next(&mut self, alloc: Global, answer: Option<Answer>) -> Result<BackTurn, Memory>
        ghost listed: { Listed }
        requires told { IsToldBack listed self.old }
        requires may { MayTellBack answer self.old }
        ensures turns { IfOk result (TellsBackTurn listed answer self.old self.new) }
        ensures over { IsErr result → self.new.backing ≡ None }
        ensures stays { self.old.backing ≡ None → IsErr result }
    {
        let Some(mut backing) = self.backing.take() else {
            return Err(Memory);
        };
        match proceed_back(alloc, &mut backing, answer)? {
            Backed::Counts(counted) => {
                backing.stage = Stage::Counted(counted.next);
                self.backing = Some(backing);
                Ok(BackTurn::Count(counted.ask))
            }
            Backed::Asks(ask, asked) => {
                backing.stage = Stage::Walked(asked);
                self.backing = Some(backing);
                Ok(BackTurn::Count(ask))
            }
            Backed::Ended => Ok(BackTurn::Done(reply_of(backing)?)),
        }
    }
}
