ghost use Rattle.std.specs.Prelude.{◌≡◌, map, IfOk};
ghost use Rattle.serde_json.specs.View.{view};
ghost use Rattle.config_read.specs.Members.{shown, kept};
ghost use Rattle.config_read.specs.Rewrites.{in_order, entries_in};

use crate::members::{Entry, entries_of};
use edge_base::Memory;
use serde_json::Value;
use std::alloc::Global;
use std::collections::BTreeMap;

/// Members behind the lower case of their names and the names as written.
type Ordered<'v> = BTreeMap<(Vec<u8>, Vec<u8>), Entry<'v>>;

/// The members in the order of the lower case of their names, equal ones in that of the names as written.
fn put_in_order<'v>(alloc: Global, entries: &[Entry<'v>]) -> Result<Ordered<'v>, Memory>
    ensures { IfOk result (λ made. map kept made.entries ≡ in_order (map shown entries.now)) }
{
    let mut ordered = BTreeMap::new(alloc);
    for entry in entries {
        let name = entry.0.as_bytes();
        let key = (
            name.to_ascii_lowercase(alloc)?,
            Vec::from_slice(alloc, name)?,
        );
        ordered.insert(key, *entry)?;
    }
    Ok(ordered)
}

fn entries_kept<'v>(alloc: Global, ordered: &Ordered<'v>) -> Result<Vec<Entry<'v>>, Memory>
    ensures { IfOk result (λ found. map shown found.items ≡ map kept ordered.now.entries) }
{
    let mut found = Vec::new(alloc);
    for (_, entry) in ordered.iter() {
        found.push(*entry)?;
    }
    Ok(found)
}

/// The members of an object in that order.
pub(crate) fn entries_in_order<'v>(
    alloc: Global,
    value: &'v Value,
) -> Result<Vec<Entry<'v>>, Memory>
    ensures { IfOk result (λ found. map shown found.items ≡ in_order (entries_in (view value.now))) }
{
    match value.as_object() {
        Some(members) => {
            let entries = entries_of(alloc, members)?;
            let ordered = put_in_order(alloc, entries.as_slice())?;
            entries_kept(alloc, &ordered)
        }
        None => Ok(Vec::new(alloc)),
    }
}
