//! What threads may share.

use crate::program::Filter;

/// Proved only for what threads may share.
fn is_shared<T: Send + Sync>(_x: &T) {}

/// Filters are plain data, which threads may share.
pub fn filter_may_be_shared(filter: &Filter) {
    is_shared(filter);
}
