//! What threads may share.

use crate::typed::Typed;

/// Proved only for what threads may share.
fn is_shared<T: Send + Sync>(_x: &T) {}

/// Checked expressions are plain data, which threads may share.
pub fn typed_may_be_shared(typed: &Typed) {
    is_shared(typed);
}
