//! The callers of a world, by their numbers.

ghost use Rattle.std.specs.Prelude.{◌≡◌, ◌<◌, Some, IfOk, length, replicate, slice_get, slice_set};
ghost use Rattle.edge_core.specs.declared.caller.Caller.TheVariants as callers_;

use crate::caller::Caller;
use edge_base::Memory;
use std::alloc::Global;
use std::mem::replace;

/// So many callers, each idle.
pub fn idle_callers(alloc: Global, count: u32) -> Result<Vec<Caller>, Memory>
    ensures { IfOk result (λ callers. callers.items ≡ replicate count callers_.Idle) }
{
    let mut callers = Vec::new(alloc);
    for _ in 0..count {
        callers.push(Caller::Idle)?;
    }
    Ok(callers)
}

/// Sets an item of a list, and gives the one before.
fn set_at<T>(items: &mut [T], at: usize, item: T) -> T
    requires { at < length items.old }
    ensures before { slice_get items.old at ≡ Some result }
    ensures after { items.new ≡ slice_set items.old at item }
{
    replace(&mut items[at], item)
}

/// Sets an item of a list, where there is one at the place, and gives the one before.
#[tactic(auto, using(crate::proofs::PlaceLemmas::get_past, crate::proofs::PlaceLemmas::set_beyond))]
pub fn exchange<T: Drop>(items: &mut [T], at: usize, item: T) -> Option<T>
    ensures before { result ≡ slice_get items.old at }
    ensures after { items.new ≡ slice_set items.old at item }
{
    if at < items.len() {
        Some(set_at(items, at, item))
    } else {
        None
    }
}

/// Sets an item of a list, where there is one at the place.
pub fn put<T: Drop>(items: &mut [T], at: usize, item: T)
    ensures { items.new ≡ slice_set items.old at item }
{
    let _before = exchange(items, at, item);
}
