//! The gate itself: what many threads share.

ghost use Rattle.std.specs.Arc.{arc_value};
ghost use Rattle.ruleset_model.specs.Valid.{IsValid};
ghost use Rattle.ruleset_model.specs.declared.verdict.VerdictKind.TheVariants as kind;

use crate::desk::{DeployFault, Desk};
use crate::passes::{Answered, Finished, Pass, Passes};
use crate::stepping::{judge_reply, judge_request};
use edge_base::{Memory, Moment, Reply, Request};
use judge_core::Judged;
use rate_plain::StepFault;
use rate_shared::{Counters, Note, Totals};
use ruleset_model::{Config, Picked};
use serde_json::Value;
use sqlite_items::Items;
use std::alloc::Global;
use std::hash::RandomState;
use std::sync::{Arc, Wait};
use version_store::Versions;

/// A gate. Its passes count in one history, which nobody keeps.
#[derive(Drop)]
pub struct Gate {
    pub(crate) counters: Counters,
}

/// A configuration is valid, as its rulesets tell. Takes no memory.
fn valid_config(config: &Arc<Config>)
    ensures { IsValid (arc_value config.now).lists (arc_value config.now).rulesets }
{
    let _rulesets = config.rulesets();
}

impl Gate {
    ghost use Rattle.std.specs.Prelude.{◌≡◌, ◌≤◌, All, length, IfOk, IfErr, OnErr};
    ghost use mathlib.Core.List.{IsPrefix};
    ghost use Rattle.serde_json.specs.View.{view};
    ghost use Rattle.rate_shared.specs.Callers.{IsOf, IsNoteOf, noted_of};
    ghost use Rattle.rate_shared.specs.Close.{AreAll, OneIsMissing, Closes};
    ghost use Rattle.rate_shared.specs.Promise.{Grows};
    ghost use Rattle.gate_run.specs.Deployments.{IsDeployed, IsRefusedFor};
    ghost use Rattle.gate_run.specs.Passes.{IsOpened, IsPassOf, IsSamePass, shape_in, caller_of, seen_by, known_to, due_to, page_of, seens_in};
    ghost use Rattle.gate_run.specs.Promises.{AnswersIn, AnswersBy, Finishes};

    /// A gate with so many passes, and a lane with room for so many live keys for each hasher. The empty configuration is
    /// in force as version 0, and the history is empty. Nobody looks yet, so it waits for nobody.
    pub fn new<R: Wait>(
        rt: &R,
        alloc: Global,
        passes: u32,
        cap: u32,
        hashers: Vec<RandomState>,
    ) -> Result<(Gate, Passes, Desk), Memory>
        requires lanes { (1 ≤ length hashers.items) × (length hashers.items ≤ 1024) }
        requires cap { (1 ≤ cap) × (cap ≤ 65536) }
        requires passes { (1 ≤ passes) × (passes ≤ 1024) }
        ensures { IfOk result (λ made. IsOpened (length hashers.items) cap passes made.0 made.1 made.2) }
    {
        let (counters, seens) = Counters::new(alloc, cap, passes, hashers)?;
        let (deployer, readers) = Versions::new(rt, alloc, Config::empty(alloc)?, passes)?;
        Ok((
            Gate { counters },
            Passes { seens, readers },
            Desk { deployer },
        ))
    }

    /// Judges a request in the version that is handed in. It waits for lanes alone.
    pub fn request_in<R: Wait>(
        &self,
        rt: &R,
        alloc: Global,
        pass: &mut Pass,
        picked: Picked,
        request: Request,
    ) -> Result<Answered, StepFault>
        requires of { IsPassOf self.now pass.old }
        ensures same { IsSamePass pass.old pass.new }
        ensures stays { pass.new.reader ≡ pass.old.reader }
        ensures answered { AnswersIn (shape_in self.now) pass.old.seen pass.new.seen picked request result }
    {
        valid_config(&picked.config);
        let mut shown = Vec::new(alloc);
        let judged = judge_request(
            rt,
            alloc,
            &self.counters,
            &mut pass.seen,
            picked,
            request,
            &mut shown,
        )?;
        let counts = Items::from_vec(shown);
        Ok(Answered { judged, counts })
    }

    /// Judges a request in the version that the pass picks. It waits for lanes alone.
    pub fn request<R: Wait>(
        &self,
        rt: &R,
        alloc: Global,
        pass: &mut Pass,
        request: Request,
    ) -> Result<Answered, StepFault>
        requires of { IsPassOf self.now pass.old }
        ensures same { IsSamePass pass.old pass.new }
        ensures known { IsPrefix (known_to pass.old) (known_to pass.new) }
        ensures due { IsPrefix (due_to pass.old) (due_to pass.new) }
        ensures told { IfOk result (λ _. IsPrefix (due_to pass.old) (known_to pass.new)) }
        ensures answered { AnswersBy (shape_in self.now) pass.old pass.new request result }
    {
        let picked = pass.reader.pick()?;
        self.request_in(rt, alloc, pass, picked, request)
    }

    /// Judges the reply to a request that passed, in the version of the request. It waits for lanes alone.
    pub fn response<R: Wait>(
        &self,
        rt: &R,
        alloc: Global,
        pass: &mut Pass,
        judged: Judged,
        reply: Reply,
        at: Moment,
    ) -> Result<Finished, StepFault>
        requires of { IsPassOf self.now pass.old }
        requires passed { judged.verdict.kind ≡ kind.Pass }
        ensures same { IsSamePass pass.old pass.new }
        ensures stays { pass.new.reader ≡ pass.old.reader }
        ensures finished { Finishes (shape_in self.now) pass.old.seen pass.new.seen judged reply at result }
    {
        valid_config(&judged.config);
        let mut shown = Vec::new(alloc);
        let reply = judge_reply(
            rt,
            alloc,
            &self.counters,
            &mut pass.seen,
            judged,
            reply,
            at,
            &mut shown,
        )?;
        let counts = Items::from_vec(shown);
        Ok(Finished { reply, counts })
    }

    /// Deploys the configuration that a document stands for, as the next version, and answers its number. A refusal
    /// publishes nothing. It waits for passes that are looking.
    pub fn deploy<R: Wait>(
        &self,
        rt: &R,
        alloc: Global,
        desk: &mut Desk,
        value: &Value,
    ) -> Result<u64, DeployFault>
        ensures deployed { IfOk result (IsDeployed (view value.now) (page_of desk.old) (page_of desk.new)) }
        ensures refused { IfErr result (IsRefusedFor (view value.now) (page_of desk.old)) }
        ensures err { OnErr result (page_of desk.new ≡ page_of desk.old) }
    {
        desk.deploy(rt, alloc, value)
    }

    /// Sees all steps so far, and tells how many they are. Takes no memory, and waits for nobody.
    pub fn catch_up(&self, pass: &mut Pass) -> u64
        requires of { IsPassOf self.now pass.old }
        ensures same { IsSamePass pass.old pass.new }
        ensures stays { pass.new.reader ≡ pass.old.reader }
        ensures grows { Grows (shape_in self.now) (caller_of pass.old) (seen_by pass.old) (seen_by pass.new) }
        ensures length { result ≡ length (seen_by pass.new) }
    {
        self.counters.catch_up(&mut pass.seen)
    }

    /// A note of what the pass has seen. Takes no memory, and waits for nobody.
    pub fn note(&self, pass: &mut Pass) -> Note
        requires of { IsPassOf self.now pass.old }
        ensures same { IsSamePass pass.old pass.new }
        ensures stays { pass.new.reader ≡ pass.old.reader }
        ensures grows { Grows (shape_in self.now) (caller_of pass.old) (seen_by pass.old) (seen_by pass.new) }
        ensures of { IsNoteOf self.now.counters result }
        ensures note { noted_of result ≡ seen_by pass.new }
    {
        self.counters.note(&mut pass.seen)
    }

    /// Sees what the note's maker had seen, and all steps so far, and tells how many they are. Takes no memory, and waits
    /// for nobody.
    pub fn meet(&self, pass: &mut Pass, note: Note) -> u64
        requires of { IsPassOf self.now pass.old }
        requires note { IsNoteOf self.now.counters note }
        ensures same { IsSamePass pass.old pass.new }
        ensures stays { pass.new.reader ≡ pass.old.reader }
        ensures grows { Grows (shape_in self.now) (caller_of pass.old) (seen_by pass.old) (seen_by pass.new) }
        ensures note { IsPrefix (noted_of note) (seen_by pass.new) }
        ensures length { result ≡ length (seen_by pass.new) }
    {
        self.counters.meet(&mut pass.seen, note)
    }

    /// Ends the gate. It is refused exactly where a pass isn't there, and then nothing changes. Takes no memory.
    pub fn close(self, passes: Passes, desk: Desk) -> Result<Totals, (Gate, Passes, Desk)>
        requires of { All (IsOf self.counters) (seens_in passes) }
        ensures all { IfOk result (λ totals. AreAll (shape_in self).callers (seens_in passes)) }
        ensures closes { IfOk result (λ totals. Closes (shape_in self) (seens_in passes) totals) }
        ensures missing { IfErr result (λ back. OneIsMissing (shape_in self).callers (seens_in passes)) }
        ensures err { IfErr result (λ back. (back.0 ≡ self) × (back.1 ≡ passes) × (back.2 ≡ desk)) }
    {
        let Passes { seens, readers } = passes;
        match self.counters.close(seens) {
            Ok(totals) => Ok(totals),
            Err((counters, seens)) => Err((Gate { counters }, Passes { seens, readers }, desk)),
        }
    }
}
