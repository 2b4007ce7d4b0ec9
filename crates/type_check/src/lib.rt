//! The type checker of the Rules language, and what a checked expression means. The meaning of an expression stands in
//! `specs/Meaning.antt`; a checked expression keeps what an evaluator wants looked up and built.
#![tactic(auto)]

mod building;
mod call;
mod checking;
mod fault;
mod judging;
mod names;
mod node;
mod parameter;
mod shared;
mod sort;
mod testing;
mod typed;
mod wildcard;

pub use checking::{check, checked_trees_have_their_kinds};
pub use fault::{Place, TypeCause, TypeFault};
pub use node::{BuiltTest, Node, Nodes};
pub use shared::typed_may_be_shared;
pub use typed::Typed;
pub use wildcard::Wildcard;
