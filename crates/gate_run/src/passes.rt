//! What a thread judges with, and what it is answered.

ghost use Rattle.std.specs.Prelude.{◌≡◌, length};

use edge_base::{Memory, Reply};
use judge_core::Judged;
use rate_plain::Counts;
use rate_shared::{Seen, Seens};
use version_store::{Told, VersionReader};

/// A caller of a gate: what it has seen of the history, and what it knows of the published versions.
#[derive(Drop)]
pub struct Pass {
    pub(crate) seen: Seen,
    pub(crate) reader: VersionReader,
}

/// Passes of a gate. What they have seen lies together, so that a gate is closed without taking memory.
#[derive(Drop)]
pub struct Passes {
    pub(crate) seens: Seens,
    pub(crate) readers: Vec<VersionReader>,
    ghost paired: { length seens.items ≡ length readers.items },
}

/// What was judged of a request, and its steps.
#[derive(Drop)]
pub struct Answered {
    pub judged: Judged,
    pub counts: Counts,
}

/// The reply as it is sent, and its steps.
#[derive(Drop)]
pub struct Finished {
    pub reply: Reply,
    pub counts: Counts,
}

impl Pass {
    ghost use Rattle.std.specs.Prelude.{◌≡◌, ◌⊎◌};
    ghost use mathlib.Core.List.{IsPrefix};
    ghost use Rattle.gate_run.specs.Passes.{IsSamePass, known_to, due_to};

    /// Learns what a desk told: the next pick is not before it. Takes no memory and waits for nobody.
    pub fn learn(&mut self, told: &Told)
        requires { told.now.book ≡ self.old.reader.book }
        ensures same { IsSamePass self.old self.new }
        ensures stays { (self.new.seen ≡ self.old.seen) × (known_to self.new ≡ known_to self.old) }
        ensures due { IsPrefix (due_to self.old) (due_to self.new) }
        ensures told { IsPrefix told.now.notices (due_to self.new) }
        ensures one { (due_to self.new ≡ due_to self.old) ⊎ (due_to self.new ≡ told.now.notices) }
    {
        self.reader.learn(told);
    }
}

impl Passes {
    ghost use Rattle.std.specs.Prelude.{MatchOption, OnOk, OnErr};
    ghost use Rattle.gate_run.specs.Passes.{IsNone, IsWith, AreAlike};

    /// Takes out the last one.
    pub fn pop(&mut self) -> Option<Pass>
        ensures { MatchOption result (IsNone self.old self.new) (IsWith self.new self.old) }
    {
        let seen = self.seens.pop()?;
        let Some(reader) = self.readers.pop() else {
            unreachable!();
        };
        Some(Pass { seen, reader })
    }

    /// Puts one back, behind the others. A refusal drops it.
    pub fn push(&mut self, pass: Pass) -> Result<(), Memory>
        ensures ok { OnOk result (IsWith self.old self.new pass) }
        ensures err { OnErr result (AreAlike self.old self.new) }
    {
        self.seens.reserve(1)?;
        self.readers.reserve(1)?;
        let Pass { seen, reader } = pass;
        self.seens.push_reserved(seen);
        self.readers.push_reserved(reader);
        Ok(())
    }
}
