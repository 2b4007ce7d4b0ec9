ghost use Rattle.std.specs.Prelude.{◌≡◌};

use edge_base::Memory;

/// Why no request was read.
#[derive(Clone, Copy, Debug, PartialEq, Eq)]
pub enum HeadFault {
    /// No bytes that could follow make the bytes a head.
    BadHead,
    /// More than 100 header fields came.
    TooManyHeaders,
    /// The first 65,536 bytes hold no whole head.
    HeadTooLong,
    /// The head has a `transfer-encoding`.
    Coding,
    /// A `content-length` is not 1 to 18 digits, or two differ.
    BadLength,
    /// The body has more than 1,048,576 bytes.
    BodyTooLong,
    /// The bytes ended before the head and the body were whole.
    Cut,
    /// A read failed.
    ReadFault,
    Memory,
}

impl From<Memory> for HeadFault {
    ghost use Rattle.http_front.specs.declared.causes.HeadFault.TheVariants as fault;

    ghost from_gives = { λ _ given. given ≡ fault.Memory };

    fn from(_refused: Memory) -> HeadFault {
        HeadFault::Memory
    }
}
