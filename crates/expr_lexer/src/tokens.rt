ghost use Rattle.std.specs.Prelude.{◌<◌, ◌≤◌, length, IfOk, IfErr};
ghost use Rattle.std.specs.List.{All};
ghost use Rattle.edge_base.specs.Cut.{IsCut, CutsAreUnique, FaultsAreUnique, UncutHaveFaults};
ghost use Rattle.expr_lexer.specs.Fronts.{IsFoundAt};
ghost use Rattle.expr_lexer.specs.Lexed.{IsInside, IsLexFault};

use crate::bytes::is_blank_byte;
use crate::fronts::{longest_token, may_stand_before};
use edge_base::{Token, Tokens};
use std::alloc::{AllocError, Global};

/// Why a text isn't cut.
#[derive(Clone, Copy, Debug, PartialEq, Eq)]
pub enum LexFault {
    /// The first place at which neither a blank nor a token stands.
    Lex { at: u32 },
    Memory,
}

impl From<AllocError> for LexFault {
    ghost use Rattle.std.specs.Prelude.{◌≡◌};
    ghost use Rattle.expr_lexer.specs.declared.tokens.LexFault.TheVariants as fault;

    ghost from_gives = { λ _ e. e ≡ fault.Memory };

    fn from(_refused: AllocError) -> LexFault {
        LexFault::Memory
    }
}

/// The tokens of a text of the Rules language.
pub fn lex(alloc: Global, text: &[u8]) -> Result<Tokens, LexFault>
    requires { length text.now ≤ 4096 }
    ensures ok { IfOk result (λ tokens. IsCut text.now tokens) }
    ensures within { IfOk result (λ tokens. All (IsInside text.now) tokens) }
    ensures fault { IfErr result (λ fault. IsLexFault text.now fault) }
{
    let mut tokens = Tokens::new(alloc);
    let mut at = 0;
    while at < text.len() {
        if is_blank_byte(text[at]) {
            at += 1;
        } else {
            let Some(token) = token_at(text, at) else {
                return Err(LexFault::Lex { at: at as u32 });
            };
            tokens.push(token)?;
            at = token.end as usize;
        }
    }
    Ok(tokens)
}

/// The longest token at a place, where its neighbour lets it stand.
fn token_at(text: &[u8], at: usize) -> Option<Token>
    requires short { length text.now ≤ 4096 }
    requires within { at < length text.now }
    ensures { IsFoundAt text.now at result }
{
    let rest = &text[at..];
    let Some(front) = longest_token(rest) else {
        return None;
    };
    if may_stand_before(front.kind, &rest[front.size..]) {
        Some(Token {
            kind: front.kind,
            start: at as u32,
            end: (at + front.size) as u32,
        })
    } else {
        None
    }
}

/// A text has at most one cut.
pub fn cuts_are_unique()
    ensures { CutsAreUnique }
{}

/// A text with a place of fault has no other, and no cut.
pub fn faults_are_unique()
    ensures { FaultsAreUnique }
{}

/// A text without a cut has a place of fault.
pub fn uncut_have_faults()
    ensures { UncutHaveFaults }
{}
