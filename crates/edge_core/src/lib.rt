//! Everything that callers and deployments may do, in every order: a world of callers, one published list and one
//! counter, moved by one event at a time. What an event comes to stands in `specs/Steps.antt`, and what holds of every run
//! in `specs/Laws.antt` and `specs/Since.antt`. It has no thread, no lock and no clock.
#![tactic(auto)]

mod caller;
mod event;
mod judging;
mod laws;
mod places;
mod running;
mod version;
mod world;

pub use caller::Caller;
pub use event::{Event, Events, Shown, ShownList};
pub use laws::{
    histories_are_legal, refusals_change_nothing, replies_are_judged, verdicts_are_judged,
};
pub use running::run;
pub use version::Version;
pub use world::World;
