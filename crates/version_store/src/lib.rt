//! The configuration that is in force. One deployer publishes versions of it, and that the run is to stop; readers in
//! other threads pick one without waiting. What was published is a list of notices (`specs/Notices.antt`), which exists
//! in the proofs alone: both sides of the store have a token of it beside the version.
#![tactic(auto)]

mod book;
mod deployed;
mod deployer;
mod fault;
mod front;
mod line;
mod notice;
mod reader;
mod shared;
mod store;
mod version;
mod versions;

pub use deployer::{Deployer, Told};
pub use fault::PublishFault;
pub use notice::Notice;
pub use reader::VersionReader;
pub use shared::versions_may_cross_threads;
pub use versions::Versions;
