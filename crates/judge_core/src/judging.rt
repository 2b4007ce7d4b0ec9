//! The judging of a request, turn by turn.

ghost use Rattle.std.specs.Prelude.{◌≡◌, None, IfOk, IsErr};
ghost use Rattle.std.specs.Arc.{arc_value};
ghost use Rattle.judge_core.specs.Stands.{IsJudged, IsTold, MayTell, Proceeds, StandsFor, TellsTurn, opened, opening};
ghost use Rattle.judge_core.specs.Values.{Listed, AreTold};

use crate::carried::State;
use crate::changing::unchanged;
use crate::kept::KeptCounts;
use crate::merging::merged;
use crate::outcome::{Asked, Ran};
use crate::running::go_on;
use edge_base::{Memory, Request, RuleName};
use rate_plain::{Answer, Ask};
use ruleset_model::{Config, Picked, Skips, Verdict, VerdictKind};
use sqlite_items::Items;
use std::alloc::Global;
use std::sync::Arc;

/// What was judged of a request, in which version.
#[derive(Drop)]
pub struct Judged {
    pub version: u64,
    pub config: Arc<Config>,
    pub verdict: Verdict,
    /// The request as it was rewritten.
    pub request: Request,
    /// The rules that count by the reply, in the order reached.
    pub kept: KeptCounts,
    /// What all rules skip from here on.
    pub skips: Skips,
}

/// What comes next: a step is asked, or the judging is done.
#[derive(Drop)]
pub enum Turn {
    Count(Ask),
    Done(Judged),
}

/// A judging under way, and the rule that asked a step.
#[derive(Drop)]
pub struct Running {
    pub picked: Picked,
    pub asked: Option<Asked>,
    pub state: State,
}

/// The judging of a request. Once memory was wanted, or it is done, it is over.
#[derive(Drop)]
pub struct Judge {
    running: Option<Running>,
}

/// What is carried at first. Takes no memory.
fn opened(alloc: Global, request: Request) -> State
    ensures { result ≡ opened request }
{
    State {
        request,
        reply: None,
        earlier: None,
        skipping: Items::new(alloc),
        changes: unchanged(alloc),
        noted: Items::new(alloc),
        kept: Items::new(alloc),
    }
}

/// What was judged where the judging ends.
fn finish(
    alloc: Global,
    running: Running,
    kind: VerdictKind,
    rule: Option<RuleName>,
) -> Result<Judged, Memory>
    ensures { IfOk result (IsJudged running kind rule) }
{
    let skips = merged(alloc, &running.picked.config, &running.state)?;
    let Running { picked, state, .. } = running;
    Ok(Judged {
        version: picked.number,
        config: picked.config,
        verdict: Verdict {
            kind,
            rule,
            noted: state.noted,
        },
        request: state.request,
        kept: state.kept,
        skips,
    })
}

/// On until a step is asked or the judging ends.
fn proceed(alloc: Global, running: &mut Running, answer: Option<Answer>) -> Result<Ran, Memory>
    ghost listed: { Listed }
    requires told { AreTold listed (arc_value running.old.picked.config) }
    ensures goes { IfOk result (Proceeds listed answer running.old running.new) }
    ensures same { running.new.picked ≡ running.old.picked }
{
    let config: &Config = &running.picked.config;
    go_on(alloc, config, running.asked, answer, &mut running.state)
}

impl Judge {
    /// The judging of a request in a version. Takes no memory.
    pub fn start(alloc: Global, picked: Picked, request: Request) -> Judge
        ensures stands { (listed : Listed) → StandsFor listed (opening picked request) result }
        ensures told { (listed : Listed) → AreTold listed (arc_value picked.config) → IsTold listed result }
        ensures may { MayTell None result }
    {
        Judge {
            running: Some(Running {
                picked,
                asked: None,
                state: opened(alloc, request),
            }),
        }
    }

    /// The next turn. The first is told no answer, each later one the answer to the step that was asked.
    pub fn next(&mut self, alloc: Global, answer: Option<Answer>) -> Result<Turn, Memory>
        ghost listed: { Listed }
        requires told { IsTold listed self.old }
        requires may { MayTell answer self.old }
        ensures turns { IfOk result (TellsTurn listed answer self.old self.new) }
        ensures over { IsErr result → self.new.running ≡ None }
        ensures stays { self.old.running ≡ None → IsErr result }
    {
        let Some(mut running) = self.running.take() else {
            return Err(Memory);
        };
        match proceed(alloc, &mut running, answer)? {
            Ran::Asks(ask, asked) => {
                running.asked = Some(asked);
                self.running = Some(running);
                Ok(Turn::Count(ask))
            }
            Ran::Closed(kind, name) => Ok(Turn::Done(finish(alloc, running, kind, Some(name))?)),
            Ran::Passed => Ok(Turn::Done(finish(alloc, running, VerdictKind::Pass, None)?)),
        }
    }
}
