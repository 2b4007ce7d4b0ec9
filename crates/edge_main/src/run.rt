//! How far a run of `replay` has come, line by line.

ghost use Rattle.std.specs.Prelude.{◌≡◌, ◌≤◌, ◌++◌, OnOk};
ghost use Rattle.config_read.specs.Causes.{cause_name};
ghost use Rattle.edge_main.specs.Answered.{refused_deploy_line};

use crate::asking::judge_recorded;
use crate::checking::push_refused;
use crate::statuses::Status;
use config_read::{Cause, ConfigFault, config_of};
use edge_base::{Memory, Text, TextBuilder};
use rate_lane::Lanes;
use rate_plain::StepFault;
use ruleset_model::{Config, Picked};
use serde_json::Value;
use std::alloc::Global;
use std::hash::RandomState;
use std::sync::Arc;
use trace_form::{
    BadCause, LineFault, LineItem, LineParts, Recorded, push_bad_line, push_deploy_line, push_line,
    read_item,
};

/// How many live keys a lane of the counter has room for.
const ROOM: u32 = 4096;

/// How far a run of `replay` has come.
#[derive(Drop)]
pub struct Run {
    /// The lines so far, blank and bad ones too.
    pub lines: u64,
    /// The requests so far.
    pub requests: u64,
    /// The number of the version in force.
    pub version: u64,
    pub config: Arc<Config>,
    /// Whether a line was no item.
    pub any_bad: bool,
    /// It stands for the steps of all requests and replies so far.
    pub counter: Lanes,
    ghost few_requests: { requests ≤ lines },
    ghost few_versions: { version ≤ lines },
}

/// Adds the line of a deployment that is refused.
pub fn push_refused_deploy(out: &mut TextBuilder, place: &[u8], cause: Cause) -> Result<(), Memory>
    ensures { OnOk result (out.new ≡ out.old ++ refused_deploy_line place.now (cause_name cause)) }
{
    out.push(b"deploy ")?;
    push_refused(out, place, cause)
}

impl Run {
    ghost use Rattle.std.specs.Prelude.{◌≡◌, ◌<◌, ◌^◌, ◌+◌, cond, Err, IfOk, OnOk, vec_len};
    ghost use Rattle.serde_json.specs.View.{view};
    ghost use Rattle.edge_main.specs.Answered.{opening, passed_by, refused, turned_down, put_in_force};
    ghost use Rattle.edge_main.specs.Spent.{IsSpentOn};
    ghost use Rattle.edge_main.specs.Running.{HasCome, IsSomewhere, Wherever, IsPickedOf, Came, RefusedFor, AnsweredDeployment, AnsweredLine, JudgedSo, TookSo, SpendsSo};

    /// Nothing was read yet, and version 0 is in force. There is a hasher for each lane of the counter.
    pub fn new(alloc: Global, hashers: Vec<RandomState>) -> Result<Run, Memory>
        requires { vec_len hashers ≡ 64 }
        ensures { IfOk result (λ run. HasCome run opening) }
    {
        let config = Arc::new(alloc, Config::empty(alloc)?)?;
        Ok(Run {
            lines: 0,
            requests: 0,
            version: 0,
            config,
            any_bad: false,
            counter: Lanes::new(alloc, ROOM, hashers)?,
        })
    }

    /// A line that changes nothing and is not answered.
    fn pass_by(&mut self, answer: &mut TextBuilder)
        requires { self.old.lines < 2 ^ 40 }
        ensures came { Wherever self.old (λ s. Came (passed_by s) answer.new self.new) }
        ensures lines { self.new.lines ≡ self.old.lines + 1 }
    {
        answer.clear();
        self.lines += 1;
    }

    /// A line that is no item, for this cause.
    pub fn refuse(&mut self, why: BadCause, answer: &mut TextBuilder) -> Result<(), Memory>
        requires { self.old.lines < 2 ^ 40 }
        ensures came { OnOk result (Wherever self.old (λ s. Came (refused s why) answer.new self.new)) }
        ensures lines { OnOk result (self.new.lines ≡ self.old.lines + 1) }
    {
        answer.clear();
        push_bad_line(answer, self.lines + 1, why)?;
        self.lines += 1;
        self.any_bad = true;
        Ok(())
    }

    /// A line of which no item was read, for its cause; or memory was refused.
    fn refuse_for(&mut self, fault: LineFault, answer: &mut TextBuilder) -> Result<(), Memory>
        requires { self.old.lines < 2 ^ 40 }
        ensures refused { OnOk result (Wherever self.old (λ s. RefusedFor fault s answer.new self.new)) }
        ensures lines { OnOk result (self.new.lines ≡ self.old.lines + 1) }
    {
        match fault {
            LineFault::Bad(why) => self.refuse(why, answer),
            LineFault::Memory => Err(Memory),
        }
    }

    /// A deployment that is taken: it becomes the next version.
    fn put_in_force(
        &mut self,
        alloc: Global,
        config: Config,
        answer: &mut TextBuilder,
    ) -> Result<(), Memory>
        requires { self.old.lines < 2 ^ 40 }
        ensures came { OnOk result (Wherever self.old (λ s. Came (put_in_force s config) answer.new self.new)) }
        ensures lines { OnOk result (self.new.lines ≡ self.old.lines + 1) }
    {
        answer.clear();
        push_deploy_line(answer, self.version + 1)?;
        self.config = Arc::new(alloc, config)?;
        self.lines += 1;
        self.version += 1;
        Ok(())
    }

    /// A deployment that is refused: it changes nothing.
    fn turn_down(
        &mut self,
        place: Text,
        cause: Cause,
        answer: &mut TextBuilder,
    ) -> Result<(), Memory>
        requires { self.old.lines < 2 ^ 40 }
        ensures came { OnOk result (Wherever self.old (λ s. Came (turned_down s place cause) answer.new self.new)) }
        ensures lines { OnOk result (self.new.lines ≡ self.old.lines + 1) }
    {
        answer.clear();
        push_refused_deploy(answer, place.bytes(), cause)?;
        self.lines += 1;
        Ok(())
    }

    /// A deployment: it is put in force, or refused.
    fn deploy(
        &mut self,
        alloc: Global,
        value: &Value,
        answer: &mut TextBuilder,
    ) -> Result<(), Memory>
        requires { self.old.lines < 2 ^ 40 }
        ensures answered { OnOk result (Wherever self.old (λ s. AnsweredDeployment s (view value.now) answer.new self.new)) }
        ensures lines { OnOk result (self.new.lines ≡ self.old.lines + 1) }
    {
        match config_of(alloc, value) {
            Ok(config) => self.put_in_force(alloc, config, answer),
            Err(ConfigFault::Refused { place, cause }) => self.turn_down(place, cause, answer),
            Err(ConfigFault::Memory) => Err(Memory),
        }
    }

    /// The version in force, to judge by.
    fn picked(&self) -> Result<Picked, Memory>
        ensures { IfOk result (IsPickedOf self.now) }
    {
        let _valid = self.config.rulesets();
        Ok(Picked {
            number: self.version,
            stopped: false,
            config: Arc::try_clone(&self.config)?,
        })
    }

    /// A request and its reply, judged by the version in force, as their line tells of them.
    fn judge(&mut self, alloc: Global, recorded: Recorded) -> Result<LineParts, StepFault>
        requires lines { self.old.lines < 2 ^ 40 }
        requires somewhere { IsSomewhere self.old }
        ensures judged { IfOk result (λ parts. Wherever self.old (λ s. JudgedSo s recorded parts self.new)) }
        ensures spent { result ≡ Err StepFault.Spent → Wherever self.old (λ s. SpendsSo s recorded) }
        ensures lines { OnOk result (self.new.lines ≡ self.old.lines + 1) }
    {
        let picked = self.picked()?;
        let number = self.requests + 1;
        let parts = judge_recorded(alloc, &mut self.counter, picked, number, recorded)?;
        self.lines += 1;
        self.requests += 1;
        Ok(parts)
    }

    /// Takes one line. Of a request its parts are given; of another line, what is written for it is then all that `answer`
    /// holds.
    pub fn take(
        &mut self,
        alloc: Global,
        given: &[u8],
        answer: &mut TextBuilder,
    ) -> Result<Option<LineParts>, StepFault>
        requires lines { self.old.lines < 2 ^ 40 }
        requires somewhere { IsSomewhere self.old }
        ensures took { IfOk result (λ parts. Wherever self.old (λ s. TookSo s given.now parts answer.new self.new)) }
        ensures spent { result ≡ Err StepFault.Spent → Wherever self.old (λ s. IsSpentOn s given.now) }
        ensures lines { OnOk result (self.new.lines ≡ self.old.lines + 1) }
    {
        match read_item(alloc, given) {
            Ok(LineItem::Blank) => {
                self.pass_by(answer);
                Ok(None)
            }
            Ok(LineItem::Deploy(value)) => {
                self.deploy(alloc, &value, answer)?;
                Ok(None)
            }
            Ok(LineItem::Ask(recorded)) => Ok(Some(self.judge(alloc, recorded)?)),
            Err(fault) => {
                self.refuse_for(fault, answer)?;
                Ok(None)
            }
        }
    }

    /// Answers one line: what is written for it is then all that `answer` holds.
    pub fn answer(
        &mut self,
        alloc: Global,
        given: &[u8],
        answer: &mut TextBuilder,
    ) -> Result<(), StepFault>
        requires lines { self.old.lines < 2 ^ 40 }
        requires somewhere { IsSomewhere self.old }
        ensures answered { OnOk result (Wherever self.old (λ s. AnsweredLine s given.now answer.new self.new)) }
        ensures spent { result ≡ Err StepFault.Spent → Wherever self.old (λ s. IsSpentOn s given.now) }
        ensures lines { OnOk result (self.new.lines ≡ self.old.lines + 1) }
    {
        match self.take(alloc, given, answer)? {
            Some(parts) => {
                answer.clear();
                Ok(push_line(answer, &parts)?)
            }
            None => Ok(()),
        }
    }

    /// How the run ends where the input does.
    pub fn ending(&self) -> Status
        ensures { result ≡ cond self.now.any_bad Status.BadItems Status.Done }
    {
        if self.any_bad {
            Status::BadItems
        } else {
            Status::Done
        }
    }
}
