//! Worked examples that cross crates.
ghost use Rattle.std.specs.Prelude.{IfOk};
ghost use Rattle.edge_fields.specs.Schemes.{AreLists};

mod checking;
mod evaluating;
mod replaying;

use edge_base::Text;
use edge_fields::{Basic, ListKinds};
use sqlite_items::Items;
use std::alloc::Global;
use std::test::Fail;

/// One list of addresses.
fn office(alloc: Global) -> Result<ListKinds, Fail>
    ensures { IfOk result (λ lists. AreLists lists) }
{
    let mut lists = Items::new(alloc);
    lists.push((Text::of(alloc, b"office")?, Basic::Addr))?;
    Ok(lists)
}
