ghost use Rattle.std.specs.Prelude.{◌≡◌};
ghost use Rattle.config_read.specs.Causes.{cause_name};

use edge_base::{Memory, Text};
use std::alloc::{AllocError, AllocFailed};

/// Why a configuration is refused.
#[derive(Clone, Copy, Debug, PartialEq, Eq)]
pub enum Cause {
    /// The document has more than 1,048,576 bytes.
    TooLong,
    /// The document is no JSON text.
    NotJson,
    /// A member that must be there is not.
    Missing,
    /// Another JSON type, or no text or number of the form or in the range that is taken there.
    Shape,
    /// More lists, rulesets or rules than there may be.
    TooMany,
    /// An earlier list has the name.
    DuplicateList,
    /// No kind of lists or rulesets has the name.
    UnknownKind,
    /// A list of more than 50,000 items.
    TooManyItems,
    /// An item of an address list that stands for no addresses.
    BadListItem,
    /// An earlier ruleset, or an earlier rule of the ruleset, has the id.
    DuplicateId,
    /// No phase has the name.
    UnknownPhase,
    /// An earlier ruleset is the entry point of the phase.
    DuplicateEntry,
    /// An expression of more than 4,096 bytes.
    ExpressionTooLong,
    /// An expression that is no run of tokens.
    Lex,
    /// Tokens that are no expression.
    Syntax,
    /// An expression nested more than 32 deep.
    TooDeep,
    UnknownField,
    UnknownFunction,
    UnknownList,
    /// A field of the reply where there is none.
    ResponseField,
    /// An unpacked operand where none may stand, or a second `regex_replace`.
    Misplaced,
    /// Kinds or numbers of arguments that don't fit.
    Mismatch,
    BadPrefix,
    BadRange,
    BadWildcard,
    PatternSyntax,
    PatternSize,
    /// No action has the name.
    UnknownAction,
    /// An action, a part of one or a header that may not stand there.
    ActionPlace,
    /// A ruleset that is executed executes another.
    NestedExecute,
    /// No ruleset has the id.
    UnknownRuleset,
    /// A limit that may not stand there, or a part of one that is out of its range.
    BadLimit,
}

/// What is answered for a document that gives no configuration.
#[derive(Debug, PartialEq, Eq, Drop)]
pub enum ConfigFault {
    /// The first refusal in the reading order: a JSON pointer, `/` for the whole document, and why.
    Refused { place: Text, cause: Cause },
    Memory,
}

impl Cause {
    /// The name that is printed. Takes no memory.
    pub fn name(&self) -> &'static [u8]
        ensures { result.now ≡ cause_name self.now }
    {
        match self {
            Cause::TooLong => b"TooLong",
            Cause::NotJson => b"NotJson",
            Cause::Missing => b"Missing",
            Cause::Shape => b"Shape",
            Cause::TooMany => b"TooMany",
            Cause::DuplicateList => b"DuplicateList",
            Cause::UnknownKind => b"UnknownKind",
            Cause::TooManyItems => b"TooManyItems",
            Cause::BadListItem => b"BadListItem",
            Cause::DuplicateId => b"DuplicateId",
            Cause::UnknownPhase => b"UnknownPhase",
            Cause::DuplicateEntry => b"DuplicateEntry",
            Cause::ExpressionTooLong => b"ExpressionTooLong",
            Cause::Lex => b"Lex",
            Cause::Syntax => b"Syntax",
            Cause::TooDeep => b"TooDeep",
            Cause::UnknownField => b"UnknownField",
            Cause::UnknownFunction => b"UnknownFunction",
            Cause::UnknownList => b"UnknownList",
            Cause::ResponseField => b"ResponseField",
            Cause::Misplaced => b"Misplaced",
            Cause::Mismatch => b"Mismatch",
            Cause::BadPrefix => b"BadPrefix",
            Cause::BadRange => b"BadRange",
            Cause::BadWildcard => b"BadWildcard",
            Cause::PatternSyntax => b"PatternSyntax",
            Cause::PatternSize => b"PatternSize",
            Cause::UnknownAction => b"UnknownAction",
            Cause::ActionPlace => b"ActionPlace",
            Cause::NestedExecute => b"NestedExecute",
            Cause::UnknownRuleset => b"UnknownRuleset",
            Cause::BadLimit => b"BadLimit",
        }
    }
}

impl From<Memory> for ConfigFault {
    ghost use Rattle.std.specs.Prelude.{◌≡◌};
    ghost use Rattle.config_read.specs.declared.fault.ConfigFault.TheVariants as fault;

    ghost from_gives = { λ _ given. given ≡ fault.Memory };

    fn from(_refused: Memory) -> ConfigFault {
        ConfigFault::Memory
    }
}

impl From<AllocError> for ConfigFault {
    ghost use Rattle.std.specs.Prelude.{◌≡◌};
    ghost use Rattle.config_read.specs.declared.fault.ConfigFault.TheVariants as fault;

    ghost from_gives = { λ _ given. given ≡ fault.Memory };

    fn from(_refused: AllocError) -> ConfigFault {
        ConfigFault::Memory
    }
}

impl<T: Drop> From<AllocFailed<T>> for ConfigFault {
    ghost use Rattle.std.specs.Prelude.{◌≡◌};
    ghost use Rattle.config_read.specs.declared.fault.ConfigFault.TheVariants as fault;

    ghost from_gives = { λ _ given. given ≡ fault.Memory };

    fn from(_refused: AllocFailed<T>) -> ConfigFault {
        ConfigFault::Memory
    }
}
