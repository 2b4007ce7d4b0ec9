//! A walk over events by hand, for two rules that it knows: it has neither a judge nor a counter, and each request comes
//! and each reply comes back at moment 0, from an address of its caller's own.
use edge_base::{Memory, TextBuilder};
use std::alloc::Global;

/// What is deployed: nothing, a rule that counts requests (two in 10 s), or one that counts replies of 401 (one in 60 s).
#[derive(Clone, Copy, PartialEq, Eq)]
pub enum Deployed {
    Nothing,
    Requests,
    Replies,
}

/// The events that the walk knows.
#[derive(Clone, Copy)]
pub enum Happened {
    Arrive(u32),
    Pick(u32),
    Count(u32),
    Done(u32),
    Back(u32, u16),
    Deploy(Deployed),
    /// A document that is refused.
    Misspelt,
}

/// How far a caller has come. `over` is what its last step was told.
#[derive(Clone, Copy)]
enum Stage {
    Idle,
    Came,
    Asks(Deployed),
    Decided { by: Deployed, over: bool },
    Judged { by: Deployed, over: bool },
    AsksBack(u16),
    Replies(u16),
}

/// How much of a key was counted, and whether it is held.
#[derive(Clone, Copy)]
struct Kept {
    counted: u64,
    held: bool,
}

#[derive(Clone, Copy)]
struct Caller {
    stage: Stage,
    requests: Kept,
    replies: Kept,
}

#[derive(Drop)]
pub struct Walk {
    callers: Vec<Caller>,
    deployed: Deployed,
    version: u64,
    steps: u64,
    out: TextBuilder,
}

/// Whether a step that adds is over, where so many are let through.
fn adds(kept: &mut Kept, threshold: u64) -> bool {
    if kept.held {
        return true;
    }
    if kept.counted == threshold {
        kept.held = true;
        return true;
    }
    kept.counted = kept.counted.saturating_add(1);
    false
}

impl Walk {
    pub fn new(alloc: Global, callers: usize) -> Result<Walk, Memory> {
        let none = Kept {
            counted: 0,
            held: false,
        };
        let caller = Caller {
            stage: Stage::Idle,
            requests: none,
            replies: none,
        };
        Ok(Walk {
            callers: Vec::from_elem(alloc, caller, callers)?,
            deployed: Deployed::Nothing,
            version: 0,
            steps: 0,
            out: TextBuilder::new(alloc),
        })
    }

    /// The text of all that was shown.
    pub fn text(&self) -> &[u8] {
        self.out.bytes()
    }

    fn say(&mut self, word: &[u8]) -> Result<(), Memory> {
        self.out.push(word)?;
        self.out.push(b"\n")
    }

    fn say_number(&mut self, word: &[u8], number: u64) -> Result<(), Memory> {
        self.out.push(word)?;
        self.out.push_number(number)?;
        self.out.push(b"\n")
    }

    fn say_step(&mut self, over: bool, until: u64) -> Result<(), Memory> {
        self.out.push(b"counted ")?;
        self.out.push_number(self.steps)?;
        self.steps = self.steps.saturating_add(1);
        if over {
            self.say_number(b" over@", until)
        } else {
            self.say(b" pass")
        }
    }

    fn arrive(&mut self, caller: usize) -> Result<(), Memory> {
        if let Some(one) = self.callers.get_mut(caller) {
            if let Stage::Idle | Stage::Judged { .. } = one.stage {
                one.stage = Stage::Came;
                return self.say(b"-");
            }
        }
        self.say(b"unfit")
    }

    fn pick(&mut self, caller: usize) -> Result<(), Memory> {
        if let Some(one) = self.callers.get_mut(caller) {
            if let Stage::Came = one.stage {
                one.stage = match self.deployed {
                    Deployed::Nothing => Stage::Decided {
                        by: Deployed::Nothing,
                        over: false,
                    },
                    by => Stage::Asks(by),
                };
                return self.say_number(b"picked ", self.version);
            }
        }
        self.say(b"unfit")
    }

    fn count(&mut self, caller: usize) -> Result<(), Memory> {
        let Some(one) = self.callers.get_mut(caller) else {
            return self.say(b"unfit");
        };
        match one.stage {
            Stage::Asks(Deployed::Requests) => {
                let over = adds(&mut one.requests, 2);
                one.stage = Stage::Decided {
                    by: Deployed::Requests,
                    over,
                };
                self.say_step(over, 10_000)
            }
            Stage::Asks(by) => {
                let over = one.replies.held;
                one.stage = Stage::Decided { by, over };
                self.say_step(over, 60_000)
            }
            Stage::AsksBack(status) => {
                let over = adds(&mut one.replies, 1);
                one.stage = Stage::Replies(status);
                self.say_step(over, 60_000)
            }
            _ => self.say(b"unfit"),
        }
    }

    fn done(&mut self, caller: usize) -> Result<(), Memory> {
        let Some(one) = self.callers.get_mut(caller) else {
            return self.say(b"unfit");
        };
        match one.stage {
            Stage::Decided { by, over } => {
                one.stage = Stage::Judged { by, over };
                if over {
                    self.say(b"block:429")
                } else {
                    self.say(b"pass")
                }
            }
            Stage::Replies(status) => {
                one.stage = Stage::Idle;
                self.say_number(b"replied ", u64::from(status))
            }
            _ => self.say(b"unfit"),
        }
    }

    fn back(&mut self, caller: usize, status: u16) -> Result<(), Memory> {
        if let Some(one) = self.callers.get_mut(caller) {
            if let Stage::Judged { by, over: false } = one.stage {
                one.stage = if by == Deployed::Replies && status == 401 {
                    Stage::AsksBack(status)
                } else {
                    Stage::Replies(status)
                };
                return self.say(b"-");
            }
        }
        self.say(b"unfit")
    }

    fn deploy(&mut self, deployed: Deployed) -> Result<(), Memory> {
        self.deployed = deployed;
        self.version = self.version.saturating_add(1);
        self.say_number(b"deployed ", self.version)
    }

    /// One event, and what it shows.
    pub fn step(&mut self, happened: Happened) -> Result<(), Memory> {
        match happened {
            Happened::Arrive(caller) => self.arrive(caller as usize),
            Happened::Pick(caller) => self.pick(caller as usize),
            Happened::Count(caller) => self.count(caller as usize),
            Happened::Done(caller) => self.done(caller as usize),
            Happened::Back(caller, status) => self.back(caller as usize, status),
            Happened::Deploy(deployed) => self.deploy(deployed),
            Happened::Misspelt => self.say(b"refused /rulesets Shape"),
        }
    }
}
