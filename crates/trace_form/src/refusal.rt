ghost use Rattle.std.specs.Prelude.{◌≡◌};
ghost use Rattle.trace_form.specs.Line.{cause_name};

use edge_base::Memory;
use std::alloc::AllocError;

/// Why a line is no item. Of several causes the first that stands here is told.
#[derive(Clone, Copy, Debug, PartialEq, Eq)]
pub enum BadCause {
    /// It has more than 1,048,576 bytes.
    LongLine,
    NotJson,
    /// A member that is needed isn't there, or one hasn't its form.
    Shape,
    BadAddress,
    /// The moment is below 0 or above 2^53.
    BadMoment,
    /// What was sent doesn't begin with a whole request.
    BadHead,
}

/// Why a line gave no item.
#[derive(Clone, Copy, Debug, PartialEq, Eq)]
pub enum LineFault {
    Bad(BadCause),
    Memory,
}

impl BadCause {
    /// The name that is printed. Takes no memory.
    pub fn name(&self) -> &'static [u8]
        ensures { result.now ≡ cause_name self.now }
    {
        match self {
            BadCause::LongLine => b"LongLine",
            BadCause::NotJson => b"NotJson",
            BadCause::Shape => b"Shape",
            BadCause::BadAddress => b"BadAddress",
            BadCause::BadMoment => b"BadMoment",
            BadCause::BadHead => b"BadHead",
        }
    }
}

impl From<Memory> for LineFault {
    ghost use Rattle.std.specs.Prelude.{◌≡◌};
    ghost use Rattle.trace_form.specs.declared.refusal.LineFault.TheVariants as fault;

    ghost from_gives = { λ _ given. given ≡ fault.Memory };

    fn from(_refused: Memory) -> LineFault {
        LineFault::Memory
    }
}

impl From<AllocError> for LineFault {
    ghost use Rattle.std.specs.Prelude.{◌≡◌};
    ghost use Rattle.trace_form.specs.declared.refusal.LineFault.TheVariants as fault;

    ghost from_gives = { λ _ given. given ≡ fault.Memory };

    fn from(_refused: AllocError) -> LineFault {
        LineFault::Memory
    }
}
