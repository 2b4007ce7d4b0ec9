//! The gate: many threads judge requests while a desk deploys rules. Each judging is the plain interpreter's in the one
//! version that it picked, and all count in one legal history (`specs/Went.antt`, `specs/Promises.antt`).
#![tactic(auto)]

mod desk;
mod gate;
mod passes;
mod sharing;
mod stepping;

pub use desk::{DeployFault, Desk};
pub use gate::Gate;
pub use passes::{Answered, Finished, Pass, Passes};
pub use sharing::{gates_are_shared, passes_are_sent};
