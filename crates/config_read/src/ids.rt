ghost use Rattle.std.specs.Prelude.{◌≡◌, OnOk};
ghost use Rattle.config_read.specs.Ids.{place_of, is_kept, Keeps};

use edge_base::Memory;
use std::alloc::Global;
use std::collections::BTreeMap;

/// Ids, each with a place.
pub(crate) type Ids<'v> = BTreeMap<&'v [u8], usize>;

/// The place that is kept for an id.
pub(crate) fn place_of(ids: &Ids, id: &[u8]) -> Option<usize>
    ensures { result ≡ place_of ids.now id.now }
{
    match ids.get(id) {
        Some(at) => Some(*at),
        None => None,
    }
}

/// Whether an id is kept.
pub(crate) fn is_kept(ids: &Ids, id: &[u8]) -> bool
    ensures { result ≡ is_kept ids.now id.now }
{
    place_of(ids, id).is_some()
}

/// Keeps a place for an id, instead of the one that it had.
pub(crate) fn keep<'v>(ids: &mut Ids<'v>, id: &'v [u8], at: usize) -> Result<(), Memory>
    ensures { OnOk result (Keeps ids.old ids.new id.now at) }
{
    ids.insert(id, at)?;
    Ok(())
}
