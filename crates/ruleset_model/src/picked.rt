use crate::config::Config;
use std::sync::Arc;

/// A version of the configuration that was published, and whether the run is to stop.
#[derive(Drop)]
pub struct Picked {
    pub number: u64,
    pub stopped: bool,
    pub config: Arc<Config>,
}
