ghost use Rattle.std.specs.Prelude.{◌≡◌, ◌+◌, ◌^◌, ◌<◌, [], ◌∷◌, ◌↔◌, IfOk, IsErrOf, MatchResult};
ghost use Rattle.version_store.specs.declared.fault.PublishFault.TheVariants as PublishFault;
ghost use Rattle.version_store.specs.declared.notice.Notice.TheVariants.{Put, Stop};
ghost use Rattle.version_store.specs.Books.{grown, Opens};
ghost use Rattle.version_store.specs.Notices.{IsPicked, puts_of};

use crate::fault::PublishFault;
use crate::front::Front;
use crate::line::Line;
use crate::reader::VersionReader;
use core::mem::replace_with;
use edge_base::Memory;
use ruleset_model::{Config, Picked};
use std::alloc::Global;
use std::marker::Model;
use std::mem::ManuallyDrop;
use std::sync::Wait;

/// What a deployer told: its list as it was then.
#[derive(Drop)]
pub struct Told {
    front: Front,
}

impl Model for Told {
    ghost use Rattle.std.specs.Coded.{codes};
    ghost use Rattle.version_store.specs.Books.{Page};
    ghost use Rattle.version_store.specs.contracts.notice.Notice.{the_row as notice_row};

    ghost Value = { Page };

    ghost coded = { Prim.hlevel (codes, notice_row.coded) };

    ghost view = { λ told. told.front };
}

impl Told {
    pub(crate) fn front(&self) -> Front
        ensures { result ≡ self.now }
    {
        self.front.again()
    }
}

/// A line that may be given up: its two states then stay in memory.
#[derive(Drop)]
struct Kept {
    line: ManuallyDrop<Line>,
}

impl Model for Kept {
    ghost use Rattle.std.specs.Coded.{codes};
    ghost use Rattle.core.specs.Mem.{manually_drop_value};
    ghost use Rattle.version_store.specs.Books.{Page};
    ghost use Rattle.version_store.specs.contracts.notice.Notice.{the_row as notice_row};

    ghost Value = { Page };

    ghost coded = { Prim.hlevel (codes, notice_row.coded) };

    ghost view = { λ kept. manually_drop_value kept.line };
}

impl Kept {
    fn of(line: Line) -> Kept
        ensures { result ≡ line }
    {
        Kept {
            line: unsafe { ManuallyDrop::new_unchecked(line) },
        }
    }

    fn out(self) -> Line
        ensures { result ≡ self }
    {
        ManuallyDrop::into_inner(self.line)
    }

    fn line(&self) -> &Line
        ensures { result.now ≡ self.now }
    {
        &*self.line
    }

    fn put<R: Wait>(
        self,
        rt: &R,
        alloc: Global,
        config: Config,
    ) -> (Kept, Result<u64, PublishFault>)
        ensures list { MatchResult result.1 (λ _. result.0 ≡ grown self (Put config)) (λ _. result.0 ≡ self) }
        ensures number { IfOk result.1 (λ number. puts_of result.0.notices ≡ number + 1) }
        ensures spent { IsErrOf result.1 PublishFault.Spent ↔ (puts_of self.notices ≡ 2 ^ 40 + 1) }
    {
        let (line, answer) = self.out().put(rt, alloc, config);
        (Kept::of(line), answer)
    }

    fn stop<R: Wait>(self, rt: &R) -> (Kept, Result<(), Memory>)
        ensures { MatchResult result.1 (λ _. result.0 ≡ grown self Stop) (λ _. result.0 ≡ self) }
    {
        let (line, answer) = self.out().stop(rt);
        (Kept::of(line), answer)
    }

    fn reader(self) -> (Kept, Result<VersionReader, Memory>)
        ensures stays { result.0 ≡ self }
        ensures opens { IfOk result.1 (λ reader. Opens self reader) }
    {
        let (line, answer) = self.out().reader();
        (Kept::of(line), answer)
    }
}

/// Who publishes versions. Contracts see the published list. It may be dropped, but then what it showed last stays in
/// memory: `end` gives that back.
#[derive(Drop)]
pub struct Deployer {
    kept: Kept,
}

impl Model for Deployer {
    ghost use Rattle.std.specs.Coded.{codes};
    ghost use Rattle.version_store.specs.Books.{Page};
    ghost use Rattle.version_store.specs.contracts.notice.Notice.{the_row as notice_row};

    ghost Value = { Page };

    ghost coded = { Prim.hlevel (codes, notice_row.coded) };

    ghost view = { λ deployer. deployer.kept };
}

impl Deployer {
    /// One that published the opening configuration alone.
    pub(crate) fn open<R: Wait>(
        rt: &R,
        alloc: Global,
        first: Config,
        readers: usize,
    ) -> Result<Deployer, Memory>
        requires { (0 < readers) × (readers < 2 ^ 32) }
        ensures { IfOk result (λ deployer. deployer.notices ≡ Put first ∷ []) }
    {
        let line = Line::open(rt, alloc, first, readers)?;
        Ok(Deployer {
            kept: Kept::of(line),
        })
    }

    /// A reader that knows the list as it is.
    pub(crate) fn reader(&mut self) -> Result<VersionReader, Memory>
        ensures stays { self.new ≡ self.old }
        ensures opens { IfOk result (λ reader. Opens self.old reader) }
    {
        replace_with(&mut self.kept, (), |kept, _unit| kept.reader())
    }

    /// Publishes a configuration as the next version, and answers its number. It waits for readers that are looking.
    pub fn deploy<R: Wait>(
        &mut self,
        rt: &R,
        alloc: Global,
        config: Config,
    ) -> Result<u64, PublishFault>
        ensures list { MatchResult result (λ _. self.new ≡ grown self.old (Put config)) (λ _. self.new ≡ self.old) }
        ensures number { IfOk result (λ number. puts_of self.new.notices ≡ number + 1) }
        ensures spent { IsErrOf result PublishFault.Spent ↔ (puts_of self.old.notices ≡ 2 ^ 40 + 1) }
    {
        replace_with(
            &mut self.kept,
            (rt, alloc, config),
            |kept, (rt, alloc, config)| kept.put(rt, alloc, config),
        )
    }

    /// Publishes that the run is to stop. It waits for readers that are looking.
    pub fn stop<R: Wait>(&mut self, rt: &R) -> Result<(), Memory>
        ensures { MatchResult result (λ _. self.new ≡ grown self.old Stop) (λ _. self.new ≡ self.old) }
    {
        replace_with(&mut self.kept, rt, |kept, rt| kept.stop(rt))
    }

    /// The version that is in force. It waits for nobody.
    pub fn current(&self) -> Result<Picked, Memory>
        ensures { IfOk result (IsPicked self.now.notices) }
    {
        self.kept.line().current()
    }

    /// The published list, for readers to learn. Takes no memory and waits for nobody.
    pub fn tell(&self) -> Told
        ensures { result ≡ self.now }
    {
        Told {
            front: self.kept.line().front(),
        }
    }

    /// Ends it, once each reader that is looking has looked. Later picks are refused.
    pub fn end<R: Wait>(self, rt: &R) {
        let Deployer { kept } = self;
        kept.out().end(rt);
    }
}
