//! What the deployer and its readers share, under one rule.
ghost use Rattle.std.specs.Prelude.{◌≡◌, IfOk, IsTrue};
ghost use Rattle.left_right.specs.Sides.{view};
ghost use Rattle.version_store.specs.Agreed.{Agrees, IsShowing};

use crate::deployed::Deployed;
use crate::front::Front;
use atomic_table::{Join, Split};
use crossbeam_utils::rule::{Outcome, Protocol};
use edge_base::Memory;
use left_right::reader::Reader;
use left_right::writer::Writer;
use std::sync::Wait;

/// The rule: what is shown and what is known is of one book.
pub struct OneBook;

impl Protocol<Deployed, Option<Front>> for OneBook {
    ghost use Rattle.std.specs.Prelude.{None};
    ghost use Rattle.version_store.specs.Agreed.{AgreeOn};

    ghost holds = { AgreeOn };

    ghost first = { None };
}

pub type StoreReader = Reader<Deployed, Option<Front>, OneBook>;

pub type StoreWriter = Writer<Deployed, Deployed, Option<Front>, OneBook>;

/// A look at what is shown.
pub struct Looks;

impl Outcome<Deployed, Option<Front>> for Looks {
    ghost use Rattle.version_store.specs.Agreed.{Looks};

    ghost then = { Looks };
}

/// A publication.
pub struct Shows;

impl Outcome<Deployed, Option<Front>> for Shows {
    ghost use Rattle.version_store.specs.Agreed.{Shows};

    ghost then = { Shows };
}

/// What the deployer knows, for a new reader to know.
pub struct Passes;

impl Split<Option<Front>> for Passes {
    ghost left = { λ known. known };

    ghost right = { λ known. known };
}

impl Join<Option<Front>> for Passes {
    ghost use Rattle.std.specs.Prelude.{None};

    ghost both = { λ known told. told };

    ghost spent = { None };
}

/// Takes what is shown. The guard is held for the copy alone.
pub fn look(reader: StoreReader) -> (StoreReader, Result<Deployed, Memory>)
    ensures known { view result.0.place ≡ view reader.place }
    ensures book { IfOk result.1 (λ shown. Agrees shown.front.book (view reader.place)) }
{
    match reader.enter_as::<Looks>() {
        Ok(reading) => {
            let shown = reading.get().again();
            (reading.leave(), Ok(shown))
        }
        Err(reader) => (reader, Err(Memory)),
    }
}

/// Shows the next state, and says whether it did. It waits for those who look at the one before the last.
pub fn show<R: Wait>(rt: &R, writer: StoreWriter, next: Deployed) -> (StoreWriter, bool)
    requires { next.front.book ≡ writer.desk.shown.value.front.book }
    ensures shown { IsTrue result.1 → IsShowing next.front (view result.0.desk.place) result.0.desk.shown.value }
    ensures known { ¬ (IsTrue result.1) → view result.0.desk.place ≡ view writer.desk.place }
    ensures stays { ¬ (IsTrue result.1) → result.0.desk.shown.value.front ≡ writer.desk.shown.value.front }
{
    let mut writer = writer;
    if writer.append(next).is_err() {
        return (writer, false);
    }
    let (writer, shown) = writer.publish_as::<Shows, R>(rt);
    (writer, shown.is_ok())
}

/// A reader that knows what the deployer does.
pub fn reader_of(writer: &mut StoreWriter) -> Result<StoreReader, Memory>
    ensures told { IfOk result (λ reader. view reader.place ≡ view writer.old.desk.place) }
    ensures known { view writer.new.desk.place ≡ view writer.old.desk.place }
    ensures shown { writer.new.desk.shown ≡ writer.old.desk.shown }
{
    let mut reader = writer.factory().reader()?;
    reader.learn::<Passes>(writer.tell::<Passes>());
    Ok(reader)
}
