use crate::addresses::addresses_found;
use crate::arguments::{Names, arguments_found};
use crate::expressions::tokens_found;
use crate::faults::Fault;
use crate::heads::headers_read;
use crate::lanes::{Age, Threshold, steps_passed};
use crate::picks::picks_beside;
use crate::shared::{Meeting, steps_alone, steps_shared};
use crate::texts::texts_found;
use crate::wildcards::{Shape, matches_found};
use edge_fields::FieldId;
use std::alloc::Global;
use std::hash::RandomState;
use std::sync::Wait;
use std::thread::Threads;

/// What is called.
#[derive(Clone, Copy, Debug, PartialEq, Eq)]
pub enum Bench {
    Lex,
    HasAddr,
    HasText,
    Wild(Shape),
    /// The map of the arguments.
    Map(Names),
    /// The names of the arguments.
    ArgNames,
    /// A step on lanes.
    Lane(Threshold, Age),
    /// A pick of the version in force, beside as many other readers as the size says.
    Pick,
    /// A step on counters that as many threads share as the size says.
    Count(Meeting),
    /// The same steps by one thread on lanes.
    CountAlone,
    /// A request of a browser's usual head, with as many further fields as the size says.
    Head,
}

/// Every bench.
const BENCHES: [Bench; 18] = [
    Bench::Lex,
    Bench::HasAddr,
    Bench::HasText,
    Bench::Wild(Shape::Stars),
    Bench::Wild(Shape::LongEnd),
    Bench::Wild(Shape::LongMiddle),
    Bench::Map(Names::Spread),
    Bench::Map(Names::Alike),
    Bench::ArgNames,
    Bench::Lane(Threshold::Five, Age::New),
    Bench::Lane(Threshold::Five, Age::Worn),
    Bench::Lane(Threshold::Thousand, Age::New),
    Bench::Lane(Threshold::Thousand, Age::Worn),
    Bench::Pick,
    Bench::Count(Meeting::Apart),
    Bench::Count(Meeting::Together),
    Bench::CountAlone,
    Bench::Head,
];

/// A bench at a size, and how often the call is made.
#[derive(Clone, Copy, Debug)]
pub struct Job {
    pub bench: Bench,
    pub size: u32,
    pub rounds: u32,
}

/// Each bench at a small size.
pub const SMALL: [Job; 18] = [
    Job {
        bench: Bench::Lex,
        size: 512,
        rounds: 2,
    },
    Job {
        bench: Bench::HasAddr,
        size: 100,
        rounds: 1000,
    },
    Job {
        bench: Bench::HasText,
        size: 100,
        rounds: 1000,
    },
    Job {
        bench: Bench::Wild(Shape::Stars),
        size: 100,
        rounds: 10,
    },
    Job {
        bench: Bench::Wild(Shape::LongEnd),
        size: 100,
        rounds: 10,
    },
    Job {
        bench: Bench::Wild(Shape::LongMiddle),
        size: 100,
        rounds: 10,
    },
    Job {
        bench: Bench::Map(Names::Spread),
        size: 100,
        rounds: 10,
    },
    Job {
        bench: Bench::Map(Names::Alike),
        size: 100,
        rounds: 10,
    },
    Job {
        bench: Bench::ArgNames,
        size: 100,
        rounds: 10,
    },
    Job {
        bench: Bench::Lane(Threshold::Five, Age::New),
        size: 100,
        rounds: 1000,
    },
    Job {
        bench: Bench::Lane(Threshold::Five, Age::Worn),
        size: 100,
        rounds: 1000,
    },
    Job {
        bench: Bench::Lane(Threshold::Thousand, Age::New),
        size: 100,
        rounds: 1000,
    },
    Job {
        bench: Bench::Lane(Threshold::Thousand, Age::Worn),
        size: 100,
        rounds: 1000,
    },
    Job {
        bench: Bench::Pick,
        size: 1,
        rounds: 1000,
    },
    Job {
        bench: Bench::Count(Meeting::Apart),
        size: 2,
        rounds: 1000,
    },
    Job {
        bench: Bench::Count(Meeting::Together),
        size: 2,
        rounds: 1000,
    },
    Job {
        bench: Bench::CountAlone,
        size: 2,
        rounds: 1000,
    },
    Job {
        bench: Bench::Head,
        size: 0,
        rounds: 10,
    },
];

impl Bench {
    pub fn name(self) -> &'static str {
        match self {
            Bench::Lex => "lex",
            Bench::HasAddr => "has_addr",
            Bench::HasText => "has_text",
            Bench::Wild(Shape::Stars) => "wild",
            Bench::Wild(Shape::LongEnd) => "wild_long",
            Bench::Wild(Shape::LongMiddle) => "wild_middle",
            Bench::Map(Names::Spread) => "map",
            Bench::Map(Names::Alike) => "map_alike",
            Bench::ArgNames => "names",
            Bench::Lane(Threshold::Five, Age::New) => "lane_5",
            Bench::Lane(Threshold::Five, Age::Worn) => "lane_5_worn",
            Bench::Lane(Threshold::Thousand, Age::New) => "lane_1000",
            Bench::Lane(Threshold::Thousand, Age::Worn) => "lane_1000_worn",
            Bench::Pick => "pick",
            Bench::Count(Meeting::Apart) => "count_apart",
            Bench::Count(Meeting::Together) => "count_together",
            Bench::CountAlone => "count_alone",
            Bench::Head => "head",
        }
    }

    /// The bench of a name.
    fn named(name: &str) -> Option<Bench> {
        for bench in BENCHES {
            if bench.name() == name {
                return Some(bench);
            }
        }
        None
    }
}

impl Job {
    /// The job that words ask for: a bench's name, a size and a number of rounds.
    pub fn of(words: &[String]) -> Option<Job> {
        let [name, size, rounds] = words else {
            return None;
        };
        Some(Job {
            bench: Bench::named(name.as_str())?,
            size: size.as_str().parse().ok()?,
            rounds: rounds.as_str().parse().ok()?,
        })
    }

    /// A number that every answer of the job counts in.
    pub fn found<R: Wait + Threads + Sync>(
        self,
        rt: &R,
        alloc: Global,
        hasher: RandomState,
    ) -> Result<u64, Fault> {
        match self.bench {
            Bench::Lex => tokens_found(alloc, self.size, self.rounds),
            Bench::HasAddr => addresses_found(alloc, self.size, self.rounds),
            Bench::HasText => texts_found(alloc, self.size, self.rounds),
            Bench::Wild(shape) => matches_found(alloc, shape, self.size, self.rounds),
            Bench::Map(names) => {
                arguments_found(alloc, FieldId::Args, names, self.size, self.rounds)
            }
            Bench::Lane(threshold, age) => {
                steps_passed(alloc, hasher, threshold, age, self.size, self.rounds)
            }
            Bench::Pick => picks_beside(rt, alloc, self.size, self.rounds),
            Bench::Count(meeting) => {
                steps_shared(rt, alloc, hasher, meeting, self.size, self.rounds)
            }
            Bench::CountAlone => steps_alone(alloc, hasher, self.size, self.rounds),
            Bench::Head => headers_read(alloc, self.size, self.rounds),
            Bench::ArgNames => {
                arguments_found(
                    alloc,
                    FieldId::ArgNames,
                    Names::Spread,
                    self.size,
                    self.rounds,
                )
            }
        }
    }
}
