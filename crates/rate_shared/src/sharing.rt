//! Shows that counters may be shared by threads, and callers sent to them: a missing proof shows here, and not at a
//! thread of a crate far above.

use crate::counters::Counters;
use crate::seen::{Held, Note, Seen};

fn is_shared<T: Sync>(_value: &T) {}

fn is_sent<T: Send>(_value: &T) {}

pub fn counters_are_shared(counters: &Counters) {
    is_shared(counters);
}

pub fn callers_are_sent(seen: &Seen, note: &Note, held: &Held) {
    is_sent(seen);
    is_sent(note);
    is_sent(held);
}
