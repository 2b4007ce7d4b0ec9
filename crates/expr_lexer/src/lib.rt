//! The lexer of the Rules language: a text falls into tokens in at most one way, each the longest at its place.
//! `lex` gives that cut, or the first place of fault.
#![tactic(auto)]

mod bytes;
mod fronts;
mod scanner;
mod tokens;

pub use edge_base::{Token, TokenKind, Tokens};
pub use tokens::{LexFault, cuts_are_unique, faults_are_unique, lex, uncut_have_faults};
