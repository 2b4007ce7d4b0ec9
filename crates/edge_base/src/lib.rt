//! The plain nouns that every other crate of `edge` speaks of: texts, moments, addresses, requests and replies,
//! tokens and trees of the Rules language, and a builder for printed text. No logic of rules stands here.
#![tactic(auto)]

mod address;
mod builder;
mod expression;
mod message;
mod moment;
mod refusal;
mod rule_name;
mod terminal;
mod text;
mod token;

pub use address::{Addr, address_is_unique, parse_addr, print_addr};
pub use builder::TextBuilder;
pub use expression::{Expr, Exprs, Item, ListedItems, Lit, Order, Test, copy_exprs, copy_items};
pub use message::{Header, Headers, Reply, Request, copy_headers};
pub use moment::Moment;
pub use refusal::Memory;
pub use rule_name::{RuleName, RuleNames, copy_rule_names};
pub use terminal::Terminal;
pub use text::{Text, Texts, copy_texts};
pub use token::{Token, TokenKind, Tokens};
