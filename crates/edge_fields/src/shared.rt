//! What threads may share.

use crate::scheme::Scheme;
use crate::value::Value;

/// Proved only for what threads may share.
fn is_shared<T: Send + Sync>(_x: &T) {}

/// Values and schemes are plain data, which threads may share.
pub fn may_be_shared(value: &Value, scheme: &Scheme) {
    is_shared(value);
    is_shared(scheme);
}
