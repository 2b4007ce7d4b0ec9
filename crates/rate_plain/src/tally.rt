ghost use Rattle.std.specs.Prelude.{◌≡◌, ◌^◌, ◌↔◌, ℕ, List, length, IsErrOf};
ghost use Rattle.rate_plain.specs.Step.{WhereStands, TakesStep};
ghost use Rattle.rate_plain.specs.declared.entry.Entry.{Entry};

use crate::entry::{Answer, Ask};
use crate::fault::StepFault;
use std::alloc::Global;

/// The greatest number of steps that a history has: 2^50.
pub const MOST_STEPS: u64 = 1 << 50;

/// What counts steps. It need not keep the list that it stands for: a key that is dead may be forgotten.
pub trait Tally {
    /// So many lanes, with room for so many live keys each, and the steps so far.
    ghost stands: { Self → ℕ → ℕ → List Entry → Type 0 };

    /// Answers by the window rule, and counts the step. A refusal changes nothing.
    fn step(&mut self, alloc: Global, caller: u32, ask: &Ask) -> Result<Answer, StepFault>
        ensures answers { WhereStands (stands self.old) (TakesStep (stands self.new) caller ask.now result) }
        ensures spent { WhereStands (stands self.old) (λ _ _ h. IsErrOf result StepFault.Spent ↔ (length h ≡ 2 ^ 50)) };

    /// How many steps were taken. Takes no memory.
    fn length(&self) -> u64
        ensures { WhereStands (stands self.now) (λ _ _ history. result ≡ length history) };
}
