//! Shows that built wildcards and patterns may be sent to other threads and shared: a missing proof shows here, and
//! not at a thread of a crate far above.

use crate::pattern::Pattern;
use crate::wildcard::Wild;

fn is_shared<T: Send + Sync>(_value: &T) {}

pub fn wildcards_are_shared(wild: &Wild) {
    is_shared(wild);
}

pub fn patterns_are_shared(pattern: &Pattern) {
    is_shared(pattern);
}
