//! Shows that a gate may be shared by threads, and that passes and picked versions may be sent to them: a missing proof
//! shows here, and not at a thread of a crate far above.

use crate::gate::Gate;
use crate::passes::Pass;
use ruleset_model::Picked;

fn is_shared<T: Sync>(_value: &T) {}

fn is_sent<T: Send>(_value: &T) {}

pub fn gates_are_shared(gate: &Gate) {
    is_shared(gate);
}

pub fn passes_are_sent(pass: &Pass, picked: &Picked) {
    is_sent(pass);
    is_sent(picked);
}
