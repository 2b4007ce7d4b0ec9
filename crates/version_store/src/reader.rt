ghost use Rattle.std.specs.Prelude.{◌≡◌, ◌⊎◌, IfOk};
ghost use Rattle.left_right.specs.Sides.{view};
ghost use mathlib.Core.List.{IsPrefix};
ghost use Rattle.version_store.specs.Agreed.{Knows};
ghost use Rattle.version_store.specs.Books.{Opens};
ghost use Rattle.version_store.specs.Notices.{IsPicked};

use crate::deployed::Deployed;
use crate::deployer::Told;
use crate::front::Front;
use crate::store::{StoreReader, look};
use core::mem::replace_with;
use edge_base::Memory;
use ruleset_model::Picked;
use std::marker::Model;

/// Who picks versions. It never goes back: a pick is not before one that it picked or was told of.
#[derive(Drop)]
pub struct VersionReader {
    reader: StoreReader,
    known: Front,
    due: Front,
}

impl Model for VersionReader {
    ghost use Rattle.std.specs.Coded.{codes};
    ghost use Rattle.left_right.specs.Sides as sides;
    ghost use Rattle.version_store.specs.Agreed.{IsReading};
    ghost use Rattle.version_store.specs.Books.{Learnt};
    ghost use Rattle.version_store.specs.contracts.notice.Notice.{the_row as notice_row};

    ghost Value = { Learnt };

    ghost coded = { Prim.hlevel (codes, notice_row.coded) };

    ghost view = { λ r. record { book = r.known.book; known = r.known.notices; due = r.due.notices } };

    ghost invariant = { λ r. IsReading r.known r.due (sides.view r.reader.place) };
}

impl VersionReader {
    /// One that knows this list.
    pub(crate) fn open(reader: StoreReader, front: Front) -> VersionReader
        requires { Knows front.book (view reader.place) }
        ensures { Opens front result }
    {
        VersionReader {
            reader,
            known: front.again(),
            due: front,
        }
    }

    /// The version that is in force. It waits for nobody. A refused handle of the configuration is answered as want of
    /// memory, and so is that the deployer has ended.
    pub fn pick(&mut self) -> Result<Picked, Memory>
        ensures book { self.new.book ≡ self.old.book }
        ensures known { IsPrefix self.old.known self.new.known }
        ensures due { IsPrefix self.old.due self.new.due }
        ensures picked { IfOk result (IsPicked self.new.known) }
        ensures told { IfOk result (λ _. IsPrefix self.old.due self.new.known) }
    {
        let found = replace_with(&mut self.reader, (), |reader, _unit| look(reader))?;
        let Deployed {
            front,
            number,
            stopped,
            config,
        } = found;
        let Some(config) = config else {
            return Err(Memory);
        };
        if !front.reaches(&self.due) {
            return Err(Memory);
        }
        self.known = front.again();
        self.due = front;
        Ok(Picked {
            number,
            stopped,
            config,
        })
    }

    /// Learns what a deployer told: the next pick is not before it. Takes no memory and waits for nobody.
    pub fn learn(&mut self, told: &Told)
        requires { told.now.book ≡ self.old.book }
        ensures stays { (self.new.book ≡ self.old.book) × (self.new.known ≡ self.old.known) }
        ensures due { IsPrefix self.old.due self.new.due }
        ensures told { IsPrefix told.now.notices self.new.due }
        ensures one { (self.new.due ≡ self.old.due) ⊎ (self.new.due ≡ told.now.notices) }
    {
        let front = told.front();
        if !self.due.reaches(&front) {
            self.due = front;
        }
    }
}
