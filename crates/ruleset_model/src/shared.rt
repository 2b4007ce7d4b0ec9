//! What threads may share.

use crate::config::Config;

/// Proved only for what threads may share.
fn is_shared<T: Send + Sync>(_x: &T) {}

/// Configurations are plain data, which threads may share.
pub fn config_may_be_shared(config: &Config) {
    is_shared(config);
}
