ghost use Rattle.std.specs.Prelude.{◌≡◌, ◌+◌, ◌^◌, ◌<◌, ◌≤◌, [], ◌∷◌, ◌↔◌, IfOk, IsErrOf, MatchBool, MatchResult};
ghost use Rattle.version_store.specs.declared.fault.PublishFault.TheVariants as PublishFault;
ghost use Rattle.version_store.specs.declared.notice.Notice.TheVariants.{Put, Stop};
ghost use Rattle.version_store.specs.Books.{grown, Opens};
ghost use Rattle.version_store.specs.Notices.{IsPicked, puts_of};

use crate::book::Head;
use crate::fault::PublishFault;
use crate::front::Front;
use crate::reader::VersionReader;
use crate::store::{StoreWriter, reader_of, show};
use crate::version::Version;
use edge_base::Memory;
use ruleset_model::{Config, Picked};
use std::alloc::Global;
use std::marker::Model;
use std::sync::Wait;

/// The published list, its book's word, and the side of the store that shows it. It is ended by a call that waits.
pub struct Line {
    writer: StoreWriter,
    head: Head,
    latest: Version,
}

impl Model for Line {
    ghost use Rattle.std.specs.Coded.{codes};
    ghost use Rattle.left_right.specs.Sides as sides;
    ghost use Rattle.version_store.specs.Agreed.{IsLine};
    ghost use Rattle.version_store.specs.Books.{Page};
    ghost use Rattle.version_store.specs.contracts.notice.Notice.{the_row as notice_row};

    ghost Value = { Page };

    ghost coded = { Prim.hlevel (codes, notice_row.coded) };

    ghost view = { λ line. line.latest.front };

    ghost invariant = { λ l. IsLine l.latest.front l.head (sides.view l.writer.desk.place) l.writer.desk.shown.value };
}

impl Line {
    /// A list of the opening configuration alone, shown once. No reader is there yet, so this waits for nobody.
    pub fn open<R: Wait>(
        rt: &R,
        alloc: Global,
        first: Config,
        readers: usize,
    ) -> Result<Line, Memory>
        requires { (0 < readers) × (readers < 2 ^ 32) }
        ensures { IfOk result (λ line. line.notices ≡ Put first ∷ []) }
    {
        let (latest, head) = Version::open(alloc, first)?;
        let writer = StoreWriter::new(alloc, latest.deployed(), latest.deployed(), readers)?;
        let (writer, shown) = show(rt, writer, latest.deployed());
        if !shown {
            writer.take(rt);
            return Err(Memory);
        }
        Ok(Line {
            writer,
            head,
            latest,
        })
    }

    /// Shows the next version, and says whether it did.
    fn show<R: Wait>(self, rt: &R, next: Version) -> (Line, bool)
        requires { next.front.book ≡ self.book }
        ensures { MatchBool result.1 (result.0 ≡ next.front) (result.0 ≡ self) }
    {
        let Line {
            writer,
            head,
            latest,
        } = self;
        let (writer, shown) = show(rt, writer, next.deployed());
        let latest = if shown { next } else { latest };
        let line = Line {
            writer,
            head,
            latest,
        };
        (line, shown)
    }

    /// Publishes a configuration.
    pub fn put<R: Wait>(
        self,
        rt: &R,
        alloc: Global,
        config: Config,
    ) -> (Line, Result<u64, PublishFault>)
        ensures list { MatchResult result.1 (λ _. result.0 ≡ grown self (Put config)) (λ _. result.0 ≡ self) }
        ensures number { IfOk result.1 (λ number. puts_of result.0.notices ≡ number + 1) }
        ensures spent { IsErrOf result.1 PublishFault.Spent ↔ (puts_of self.notices ≡ 2 ^ 40 + 1) }
    {
        match self.latest.put(&self.head, alloc, config) {
            Err(fault) => (self, Err(fault)),
            Ok(next) => {
                let number = next.number;
                let (line, shown) = self.show(rt, next);
                if shown {
                    (line, Ok(number))
                } else {
                    (line, Err(PublishFault::Memory))
                }
            }
        }
    }

    /// Publishes that the run is to stop.
    pub fn stop<R: Wait>(self, rt: &R) -> (Line, Result<(), Memory>)
        ensures { MatchResult result.1 (λ _. result.0 ≡ grown self Stop) (λ _. result.0 ≡ self) }
    {
        match self.latest.stop(&self.head) {
            Err(Memory) => (self, Err(Memory)),
            Ok(next) => {
                let (line, shown) = self.show(rt, next);
                if shown {
                    (line, Ok(()))
                } else {
                    (line, Err(Memory))
                }
            }
        }
    }

    /// A reader that knows the list as it is.
    pub fn reader(self) -> (Line, Result<VersionReader, Memory>)
        ensures stays { result.0 ≡ self }
        ensures opens { IfOk result.1 (λ reader. Opens self reader) }
    {
        let Line {
            mut writer,
            head,
            latest,
        } = self;
        let reader = reader_of(&mut writer);
        let front = latest.front.again();
        let line = Line {
            writer,
            head,
            latest,
        };
        match reader {
            Err(Memory) => (line, Err(Memory)),
            Ok(reader) => (line, Ok(VersionReader::open(reader, front))),
        }
    }

    /// The version that is in force.
    pub fn current(&self) -> Result<Picked, Memory>
        ensures { IfOk result (IsPicked self.now.notices) }
    {
        self.latest.picked()
    }

    /// The list.
    pub fn front(&self) -> Front
        ensures { result ≡ self.now }
    {
        self.latest.front.again()
    }

    /// Ends it, once each reader that is looking has looked.
    pub fn end<R: Wait>(self, rt: &R) {
        let Line {
            writer,
            head: _head,
            latest: _latest,
        } = self;
        writer.take(rt);
    }
}
