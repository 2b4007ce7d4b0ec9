//! What may go from thread to thread.

use crate::deployer::{Deployer, Told};
use crate::reader::VersionReader;

/// Proved only for what may go to another thread.
fn may_be_sent<T: Send>(_x: &T) {}

/// A deployer, its readers and what was told may each go to another thread.
pub fn versions_may_cross_threads(deployer: &Deployer, reader: &VersionReader, told: &Told) {
    may_be_sent(deployer);
    may_be_sent(reader);
    may_be_sent(told);
}
