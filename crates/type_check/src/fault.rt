use edge_base::Memory;
use std::alloc::AllocError;

/// Where an expression stands in a configuration. A filter and a counting expression are conditions, a value is a
/// text; those for a reply, and a counting expression, may speak of the reply.
#[derive(Clone, Copy, Debug, PartialEq, Eq)]
pub enum Place {
    Filter,
    Value,
    Count,
    ReplyFilter,
    ReplyValue,
    Characteristic,
}

/// Why an expression means nothing, in the order in which the causes at one node are judged.
#[derive(Clone, Copy, Debug, PartialEq, Eq)]
pub enum TypeCause {
    UnknownField,
    UnknownFunction,
    UnknownList,
    /// A field of the reply at a place without one.
    ResponseField,
    /// An unpacked operand where none may stand, or a second `regex_replace`.
    Misplaced,
    /// Kinds that don't fit, too few or too many arguments, or no literal where one must stand.
    Mismatch,
    BadPrefix,
    /// A range whose first is above its last, or one of two families.
    BadRange,
    BadWildcard,
    PatternSyntax,
    PatternSize,
}

/// The answer for an expression that isn't taken. Nodes are numbered from 0, each before its parts, from the left.
#[derive(Clone, Copy, Debug, PartialEq, Eq)]
pub enum TypeFault {
    Bad { node: u32, cause: TypeCause },
    Memory,
}

impl From<Memory> for TypeFault {
    ghost use Rattle.std.specs.Prelude.{◌≡◌};
    ghost use Rattle.type_check.specs.declared.fault.TypeFault.TheVariants as fault;

    ghost from_gives = { λ _ given. given ≡ fault.Memory };

    fn from(_refused: Memory) -> TypeFault {
        TypeFault::Memory
    }
}

impl From<AllocError> for TypeFault {
    ghost use Rattle.std.specs.Prelude.{◌≡◌};
    ghost use Rattle.type_check.specs.declared.fault.TypeFault.TheVariants as fault;

    ghost from_gives = { λ _ given. given ≡ fault.Memory };

    fn from(_refused: AllocError) -> TypeFault {
        TypeFault::Memory
    }
}

/// A fault at a node.
#[derive(Clone, Copy, Debug)]
pub struct Fault {
    pub node: u32,
    pub cause: TypeCause,
}
