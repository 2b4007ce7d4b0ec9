//! A world over a list of events.

ghost use Rattle.std.specs.Prelude.{◌≡◌, ◌++◌, ◌∷◌, [], OnOk, IfOk, IfErr};
ghost use Rattle.judge_core.specs.Values.{Listed};
ghost use Rattle.ruleset_model.specs.ConfigParts.{ConfigParts};
ghost use Rattle.edge_core.specs.World.{IsTelling};
ghost use Rattle.edge_core.specs.Stands.{IsSomewhere, Wherever};
ghost use Rattle.edge_core.specs.Runs.{RunsTo, StopsAt};

use crate::event::{Events, Shown, ShownList};
use crate::world::World;
use edge_base::Memory;
use rate_plain::{StepFault, Tally};
use std::alloc::Global;

/// Adds what an event shows.
fn keep(shown: &mut ShownList, what: Shown) -> Result<(), Memory>
    ensures { OnOk result (shown.new.items ≡ shown.old.items ++ what ∷ []) }
{
    shown.push(what)?;
    Ok(())
}

/// Applies the events in order, and gives what they show. It ends at the first that ends in a fault; the world is then
/// as that event has left it.
pub fn run<T: Tally + Drop>(
    alloc: Global,
    world: &mut World<T>,
    events: Events,
) -> Result<ShownList, StepFault>
    ghost meaning: { ConfigParts → Listed }
    requires telling { IsTelling meaning }
    requires somewhere { IsSomewhere T.stands meaning world.old }
    ensures ok { IfOk result (λ shown. Wherever T.stands meaning world.old (RunsTo T.stands events.items world.new shown.items)) }
    ensures err { IfErr result (λ why. Wherever T.stands meaning world.old (StopsAt T.stands events.items world.new why)) }
{
    let mut shown = Vec::new(alloc);
    for event in events {
        let what = world.apply(alloc, event)?;
        keep(&mut shown, what)?;
    }
    Ok(shown)
}
