ghost use Rattle.std.specs.Prelude.{◌≡◌, ◌≤◌, length};
ghost use Rattle.edge_base.specs.Cut.{IsCut};
ghost use Rattle.expr_parser.specs.Parsed.{AreTokensOf, place_of, IsAnswer, AnswersAreUnique, EachTextHasAnAnswer};

use crate::depth::nesting;
use crate::reading::{Reading, fault_of, read};
use crate::terminals::terminals_of;
use edge_base::{Expr, Memory, Token, address_is_unique};
use expr_lexer::{LexFault, cuts_are_unique, faults_are_unique, lex};
use std::alloc::Global;

/// Why a text is no expression.
#[derive(Clone, Copy, Debug, PartialEq, Eq)]
pub enum ParseFault {
    /// More than 4,096 bytes.
    TooLong,
    /// The first place at which neither a blank nor a token stands.
    Lex { at: u32 },
    /// The first token such that no expression begins with the tokens up to it, or the text's end.
    Syntax { at: u32 },
    /// More than 32 open `(` and pending `not`.
    TooDeep,
    Memory,
}

impl From<Memory> for ParseFault {
    ghost use Rattle.std.specs.Prelude.{◌≡◌};
    ghost use Rattle.expr_parser.specs.declared.grammar.ParseFault.TheVariants as fault;

    ghost from_gives = { λ _ e. e ≡ fault.Memory };

    fn from(_refused: Memory) -> ParseFault {
        ParseFault::Memory
    }
}

const MAX_BYTES: usize = 4096;

const MAX_NESTING: usize = 32;

/// The first byte of the token with this number, or the text's length.
fn place_of(tokens: &[Token], size: u32, at: usize) -> u32
    ensures { result ≡ place_of tokens.now size at }
{
    match tokens.get(at) {
        Some(token) => token.start,
        None => size,
    }
}

/// The tree of the tokens, or why they have none that may stand.
fn parse_tokens(alloc: Global, text: &[u8], tokens: &[Token]) -> Result<Expr, ParseFault>
    requires few { length text.now ≤ 4096 }
    requires is_cut { IsCut text.now tokens.now }
    requires are_tokens { AreTokensOf text.now tokens.now }
    ensures { IsAnswer text.now result }
{
    let size = text.len() as u32;
    let terminals = terminals_of(alloc, text, tokens)?;
    if nesting(alloc, terminals.as_slice())? > MAX_NESTING {
        return match fault_of(alloc, terminals)? {
            Some(place) => Err(ParseFault::Syntax {
                at: place_of(tokens, size, place),
            }),
            None => Err(ParseFault::TooDeep),
        };
    }
    match read(alloc, terminals)? {
        Reading::Tree(tree) => Ok(tree),
        Reading::Fault(place) => Err(ParseFault::Syntax {
            at: place_of(tokens, size, place),
        }),
    }
}

/// The one expression that a text is.
pub fn parse(alloc: Global, text: &[u8]) -> Result<Expr, ParseFault>
    ensures { IsAnswer text.now result }
{
    if text.len() > MAX_BYTES {
        return Err(ParseFault::TooLong);
    }
    match lex(alloc, text) {
        Ok(tokens) => parse_tokens(alloc, text, tokens.as_slice()),
        Err(LexFault::Lex { at }) => Err(ParseFault::Lex { at }),
        Err(LexFault::Memory) => Err(ParseFault::Memory),
    }
}

/// No text has two answers, but for want of memory.
pub fn answers_are_unique()
    ensures { AnswersAreUnique }
{
    address_is_unique();
    cuts_are_unique();
    faults_are_unique();
}

/// Each text has an answer other than want of memory.
pub fn each_text_has_an_answer()
    ensures { EachTextHasAnAnswer }
{}
