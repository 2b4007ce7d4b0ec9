use edge_base::Memory;
use expr_lexer::LexFault;
use http_front::HeadFault;
use list_store::ListFault;
use rate_plain::StepFault;
use std::alloc::{AllocError, AllocFailed};
use text_match::WildFault;

/// Why nothing was measured.
#[derive(Clone, Copy, Debug, PartialEq, Eq)]
pub enum Fault {
    /// The words are no job.
    Usage,
    /// A layer refused what the program made for it: a mistake of this program.
    Refused,
    Write,
    Memory,
    /// There are no random numbers.
    Random,
}

impl From<Memory> for Fault {
    fn from(_refused: Memory) -> Fault {
        Fault::Memory
    }
}

impl From<AllocError> for Fault {
    fn from(_refused: AllocError) -> Fault {
        Fault::Memory
    }
}

impl<T: Drop> From<AllocFailed<T>> for Fault {
    fn from(_refused: AllocFailed<T>) -> Fault {
        Fault::Memory
    }
}

impl From<HeadFault> for Fault {
    fn from(fault: HeadFault) -> Fault {
        if fault == HeadFault::Memory {
            Fault::Memory
        } else {
            Fault::Refused
        }
    }
}

impl From<LexFault> for Fault {
    fn from(fault: LexFault) -> Fault {
        match fault {
            LexFault::Memory => Fault::Memory,
            LexFault::Lex { .. } => Fault::Refused,
        }
    }
}

impl From<ListFault> for Fault {
    fn from(fault: ListFault) -> Fault {
        match fault {
            ListFault::Memory => Fault::Memory,
            ListFault::DuplicateList { .. }
            | ListFault::BadListItem { .. }
            | ListFault::TooManyItems { .. } => Fault::Refused,
        }
    }
}

impl From<StepFault> for Fault {
    fn from(fault: StepFault) -> Fault {
        match fault {
            StepFault::Memory => Fault::Memory,
            StepFault::Spent => Fault::Refused,
        }
    }
}

impl From<WildFault> for Fault {
    fn from(fault: WildFault) -> Fault {
        match fault {
            WildFault::Memory => Fault::Memory,
            WildFault::DoubleStar | WildFault::BadEscape => Fault::Refused,
        }
    }
}

impl Fault {
    /// The number that the process ends with.
    pub fn code(self) -> u8 {
        match self {
            Fault::Usage => 2,
            Fault::Refused => 3,
            Fault::Write => 6,
            Fault::Memory => 7,
            Fault::Random => 8,
        }
    }

    /// What the operator is told.
    pub fn said(self) -> &'static str {
        match self {
            Fault::Usage => {
                "usage: edge_bench lex|has_addr|has_text|wild|wild_long|wild_middle|map|map_alike|names|lane_5|lane_5_worn|lane_1000|lane_1000_worn|pick|count_apart|count_together|count_alone|head SIZE ROUNDS"
            }
            Fault::Refused => "edge_bench: refused",
            Fault::Write => "edge_bench: write fault",
            Fault::Memory => "edge_bench: no memory",
            Fault::Random => "edge_bench: no random numbers",
        }
    }
}
