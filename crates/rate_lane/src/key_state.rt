ghost use Rattle.std.specs.Prelude.{◌≡◌, ◌≤◌, false, not, ◌&&◌, IfOk, IsOk, OnOk, OnErr};
ghost use Rattle.rate_lane.specs.KeyState.{dead_state, is_oldest_over, Forgets, has_room, roomed, StepsKey};

use circular_buffer::HeapCircularBuffer;
use edge_base::{Memory, Moment};
use rate_plain::{Answer, Ask, Key};
use std::alloc::Global;

/// What a lane keeps of a key.
#[derive(Drop)]
pub struct KeyState {
    /// The end of its last mitigation, in milliseconds.
    held_until: u64,
    /// The moment from which on it is dead, unless a further step makes it live for longer.
    live_until: u64,
    /// The moments of the steps that count, in their order. Some of the first may not count any more.
    moments: HeapCircularBuffer<Moment>,
}

/// Whether the oldest of these moments doesn't count any more.
fn is_oldest_over(moments: &HeapCircularBuffer<Moment>, key: &Key, at: Moment) -> bool
    ensures { result ≡ is_oldest_over key.now.period at moments.now.items }
{
    match moments.front() {
        Some(oldest) => oldest.get() + key.period <= at.get(),
        None => false,
    }
}

/// Takes out the moments that don't count any more.
fn forget(moments: &mut HeapCircularBuffer<Moment>, key: &Key, at: Moment)
    ensures forgets { Forgets key.now.period at moments.old.items moments.new.items }
    ensures places { moments.new.capacity ≡ moments.old.capacity }
{
    while is_oldest_over(moments, key, at) {
        moments.pop_front();
    }
}

impl KeyState {
    /// What is kept of a key that isn't live: a ring of one place, without moments.
    pub fn new(alloc: Global, key: &Key) -> Result<KeyState, Memory>
        ensures dead { IfOk result (λ state. state ≡ dead_state) }
        ensures some_threshold { 1 ≤ key.now.threshold }
    {
        let places = key.threshold.min(1) as usize;
        let moments = HeapCircularBuffer::with_capacity(alloc, places)?;
        Ok(KeyState {
            held_until: 0,
            live_until: 0,
            moments,
        })
    }

    /// The moment from which on the key is dead, in milliseconds.
    pub fn live_until(&self) -> u64
        ensures { result ≡ self.now.live_until }
    {
        self.live_until
    }

    /// Whether the ring has more places than moments.
    pub fn has_room(&self) -> bool
        ensures { result ≡ has_room self.now }
    {
        !self.moments.is_full()
    }

    /// Grows the ring where it is full and the step adds: to twice its places or the threshold, whichever is less.
    fn make_room(&mut self, ask: &Ask) -> Result<(), Memory>
        ensures ok { OnOk result (self.new ≡ roomed ask.now self.old) }
        ensures err { OnErr result (self.new ≡ self.old) }
        ensures no_memory { (ask.now.adds && not (has_room self.old)) ≡ false → IsOk result }
    {
        let places = self.moments.capacity();
        let threshold = ask.key.threshold as usize;
        if ask.adds && self.moments.is_full() && places < threshold {
            self.moments.resize(threshold.min(2 * places))?;
        }
        Ok(())
    }

    /// Answers a step of the key, and counts it. Takes no memory.
    pub fn step(&mut self, key: &Key, adds: bool, at: Moment) -> Answer
        ensures steps { StepsKey self.old self.new key.now adds at result }
        ensures places { self.new.moments.capacity ≡ self.old.moments.capacity }
        ensures longer { self.old.live_until ≤ self.new.live_until }
    {
        let now = at.get();
        if now < self.held_until {
            return Answer::Over {
                until: self.held_until,
            };
        }
        if !adds {
            return Answer::Pass;
        }
        forget(&mut self.moments, key, at);
        if self.moments.len() as u64 == key.threshold {
            let until = now + key.timeout;
            self.held_until = until;
            self.live_until = self.live_until.max(until);
            return Answer::Over { until };
        }
        self.moments.push_back(at);
        self.live_until = self.live_until.max(now + key.period);
        Answer::Pass
    }

    /// Makes room for a step of the key, answers it and counts it.
    pub fn take(&mut self, ask: &Ask, at: Moment) -> Result<Answer, Memory>
        ensures steps { IfOk result (StepsKey (roomed ask.now self.old) self.new ask.now.key ask.now.adds at) }
        ensures places { OnOk result (self.new.moments.capacity ≡ (roomed ask.now self.old).moments.capacity) }
        ensures longer { OnOk result (self.old.live_until ≤ self.new.live_until) }
        ensures err { OnErr result (self.new ≡ self.old) }
        ensures no_memory { (ask.now.adds && not (has_room self.old)) ≡ false → IsOk result }
    {
        self.make_room(ask)?;
        Ok(self.step(&ask.key, ask.adds, at))
    }
}
