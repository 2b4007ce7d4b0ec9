//! A caller, and what each event makes of it.

ghost use Rattle.std.specs.Prelude.{◌≡◌, ◌↔◌, IsTrue, IfOk, option_copied};
ghost use Rattle.std.specs.Arc.{arc_value};
ghost use Rattle.judge_core.specs.Values.{Listed};
ghost use Rattle.ruleset_model.specs.ConfigParts.{ConfigParts};
ghost use Rattle.ruleset_model.specs.declared.verdict.VerdictKind.TheVariants as kinds;
ghost use Rattle.edge_core.specs.World.{IsTelling};
ghost use Rattle.edge_core.specs.Stands.{HasAsked, MovesBy, TakesAnswer, asked_in_back, asked_in_turn, asked_now};
ghost use Rattle.edge_core.specs.declared.caller.Caller.TheVariants as callers;
ghost use Rattle.edge_core.specs.Steps.{arriving, picking, finishing, backing};

use crate::event::Shown;
use crate::judging::{begin, begin_back, go_back_on, go_on};
use crate::version::Version;
use edge_base::{Memory, Moment, Reply, Request};
use judge_core::{Back, BackTurn, Judge, Judged, Turn};
use rate_plain::{Answer, Ask};
use ruleset_model::VerdictKind;
use std::alloc::Global;

/// How far a caller has come. A judging under way is kept with its next turn.
#[derive(Drop)]
pub enum Caller {
    Idle,
    Came(Request),
    Judging(Judge, Turn),
    Judged(Judged),
    Backing(Back, BackTurn),
}

/// Whether the request passed.
fn is_pass(kind: &VerdictKind) -> bool
    ensures { IsTrue result ↔ (kind.now ≡ kinds.Pass) }
{
    match kind {
        VerdictKind::Pass => true,
        VerdictKind::Block(_) | VerdictKind::Challenge | VerdictKind::Redirect { .. } => false,
    }
}

/// The step that a judging asks, if it asks one.
fn asked_by_turn(turn: &Turn) -> Option<&Ask>
    ensures { option_copied result ≡ asked_in_turn turn.now }
{
    match turn {
        Turn::Count(ask) => Some(ask),
        Turn::Done(_) => None,
    }
}

/// The step that the judging of a reply asks, if it asks one.
fn asked_by_back(turn: &BackTurn) -> Option<&Ask>
    ensures { option_copied result ≡ asked_in_back turn.now }
{
    match turn {
        BackTurn::Count(ask) => Some(ask),
        BackTurn::Done(_) => None,
    }
}

/// What was judged shows its verdict.
fn judged_shown(alloc: Global, judged: Judged) -> Result<(Caller, Shown), Memory>
    ensures { IfOk result (λ made. (made.0 ≡ callers.Judged judged) × (made.1 ≡ Shown.Verdict judged.verdict)) }
{
    let verdict = judged.verdict.copy(alloc)?;
    Ok((Caller::Judged(judged), Shown::Verdict(verdict)))
}

/// A judging that is done shows its verdict; one that asks stays.
fn judged_or_under_way(alloc: Global, judge: Judge, turn: Turn) -> Result<(Caller, Shown), Memory>
    ensures { IfOk result (λ made. (meaning : ConfigParts → Listed) → MovesBy meaning (finishing meaning) (callers.Judging judge turn) made) }
{
    match turn {
        Turn::Done(judged) => judged_shown(alloc, judged),
        Turn::Count(ask) => Ok((Caller::Judging(judge, Turn::Count(ask)), Shown::Unfit)),
    }
}

/// A reply that is done is shown.
fn replied_or_behind(back: Back, turn: BackTurn) -> (Caller, Shown)
    ensures { (meaning : ConfigParts → Listed) → MovesBy meaning (finishing meaning) (callers.Backing back turn) result }
{
    match turn {
        BackTurn::Done(reply) => (Caller::Idle, Shown::Replied(reply)),
        BackTurn::Count(ask) => (Caller::Backing(back, BackTurn::Count(ask)), Shown::Unfit),
    }
}

/// A reply comes for what was judged; where the request didn't pass, none fits.
fn reply_to(
    alloc: Global,
    judged: Judged,
    reply: Reply,
    at: Moment,
) -> Result<(Caller, Shown), Memory>
    ghost meaning: { ConfigParts → Listed }
    requires { IsTelling meaning }
    ensures { IfOk result (MovesBy meaning (backing reply at) (callers.Judged judged)) }
{
    if !is_pass(&judged.verdict.kind) {
        return Ok((Caller::Judged(judged), Shown::Unfit));
    }
    let _valid = judged.config.rulesets();
    let (back, turn) = begin_back(alloc, judged, reply, at)?;
    Ok((Caller::Backing(back, turn), Shown::Nothing))
}

impl Caller {
    /// A request comes.
    pub fn arrive(self, request: Request) -> (Caller, Shown)
        ensures { (meaning : ConfigParts → Listed) → MovesBy meaning (arriving request) self result }
    {
        match self {
            Caller::Idle => (Caller::Came(request), Shown::Nothing),
            Caller::Judged(_) => (Caller::Came(request), Shown::Nothing),
            other => (other, Shown::Unfit),
        }
    }

    /// The version in force is picked.
    pub fn pick(self, alloc: Global, version: &Version) -> Result<(Caller, Shown), Memory>
        ghost meaning: { ConfigParts → Listed }
        requires { IsTelling meaning }
        ensures { IfOk result (MovesBy meaning (picking version.now.number (arc_value version.now.config)) self) }
    {
        match self {
            Caller::Came(request) => {
                let picked = version.picked()?;
                let (judge, turn) = begin(alloc, picked, request)?;
                Ok((Caller::Judging(judge, turn), Shown::Picked(version.number)))
            }
            other => Ok((other, Shown::Unfit)),
        }
    }

    /// The step that is asked, if one is.
    pub fn asked(&self) -> Option<&Ask>
        ensures { option_copied result ≡ asked_now self.now }
    {
        match self {
            Caller::Judging(_, turn) => asked_by_turn(turn),
            Caller::Backing(_, turn) => asked_by_back(turn),
            Caller::Idle | Caller::Came(_) | Caller::Judged(_) => None,
        }
    }

    /// The step that was asked is answered.
    pub fn answer(self, alloc: Global, answer: Answer) -> Result<Caller, Memory>
        ghost meaning: { ConfigParts → Listed }
        requires { HasAsked meaning self }
        ensures { IfOk result (TakesAnswer meaning answer self) }
    {
        match self {
            Caller::Judging(judge, _) => {
                let (judge, turn) = go_on(alloc, judge, answer)?;
                Ok(Caller::Judging(judge, turn))
            }
            Caller::Backing(back, _) => {
                let (back, turn) = go_back_on(alloc, back, answer)?;
                Ok(Caller::Backing(back, turn))
            }
            other => Ok(other),
        }
    }

    /// What is done is shown: a verdict, or a reply.
    pub fn finish(self, alloc: Global) -> Result<(Caller, Shown), Memory>
        ensures { IfOk result (λ made. (meaning : ConfigParts → Listed) → MovesBy meaning (finishing meaning) self made) }
    {
        match self {
            Caller::Judging(judge, turn) => judged_or_under_way(alloc, judge, turn),
            Caller::Backing(back, turn) => Ok(replied_or_behind(back, turn)),
            other => Ok((other, Shown::Unfit)),
        }
    }

    /// A reply comes, at a moment.
    pub fn back(self, alloc: Global, reply: Reply, at: Moment) -> Result<(Caller, Shown), Memory>
        ghost meaning: { ConfigParts → Listed }
        requires { IsTelling meaning }
        ensures { IfOk result (MovesBy meaning (backing reply at) self) }
    {
        match self {
            Caller::Judged(judged) => reply_to(alloc, judged, reply, at),
            other => Ok((other, Shown::Unfit)),
        }
    }
}
