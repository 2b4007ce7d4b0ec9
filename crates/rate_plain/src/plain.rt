ghost use Rattle.std.specs.Prelude.{◌≤◌};

use crate::entry::{Answer, Ask, Entry};
use crate::fault::StepFault;
use crate::tally::{MOST_STEPS, Tally};
use crate::window::{answer, moment};
use sqlite_items::Items;
use std::alloc::Global;

/// The window rule over the whole list of steps, which is kept as it is.
#[derive(Debug, Drop)]
pub struct PlainCounter {
    entries: Items<Entry>,
    lanes: u32,
    cap: u32,
    ghost some_lane: { 1 ≤ lanes },
}

impl PlainCounter {
    ghost use Rattle.std.specs.Prelude.{◌≡◌, ◌≤◌, [], IfOk, IfErr};
    ghost use Rattle.rate_plain.specs.Plain.{IsPlain, entry_after};

    /// A counter of no steps, of so many lanes with room for so many live keys each. Takes no memory.
    pub fn new(alloc: Global, lanes: u32, cap: u32) -> PlainCounter
        requires { 1 ≤ lanes }
        ensures { IsPlain result lanes cap [] }
    {
        PlainCounter {
            entries: Items::new(alloc),
            lanes,
            cap,
        }
    }

    /// The entry that the ask makes.
    fn entry(&self, alloc: Global, caller: u32, ask: &Ask) -> Result<Entry, StepFault>
        ensures ok { IfOk result (λ entry. entry ≡ entry_after self.now caller ask.now) }
        ensures err { IfErr result (λ fault. fault ≡ StepFault.Memory) }
    {
        let entries = self.entries.as_slice();
        let at = moment(entries, self.lanes, &ask.key, ask.asked);
        let answer = answer(entries, self.lanes, self.cap, ask, at);
        let key = ask.key.copy(alloc)?;
        Ok(Entry {
            caller,
            key,
            asked: ask.asked,
            at,
            adds: ask.adds,
            answer,
        })
    }
}

impl Tally for PlainCounter {
    ghost use Rattle.rate_plain.specs.Plain.{IsPlain};

    ghost stands = { IsPlain };

    fn step(&mut self, alloc: Global, caller: u32, ask: &Ask) -> Result<Answer, StepFault> {
        if self.length() == MOST_STEPS {
            return Err(StepFault::Spent);
        }
        let entry = self.entry(alloc, caller, ask)?;
        let answer = entry.answer;
        self.entries.push(entry)?;
        Ok(answer)
    }

    fn length(&self) -> u64 {
        self.entries.len() as u64
    }
}
