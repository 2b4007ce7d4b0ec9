use crate::wildcard::Wildcard;
use edge_base::{ListedItems, Lit, Order, Text};
use edge_fields::{FieldId, FunctionId};
use sqlite_items::{Boxed, Items};
use text_match::Pattern;

/// What an operand is tested for, with patterns and wildcards that were built.
#[derive(Drop)]
pub enum BuiltTest {
    Order(Order, Lit),
    Contains(Text),
    Matches(Pattern),
    Wild(Wildcard),
    StrictWild(Wildcard),
    Among(ListedItems),
    /// The place of a named list, and its name.
    Listed(u32, Text),
}

/// A list of nodes.
pub type Nodes = Items<Node>;

/// A checked expression, with fields and functions that were looked up.
#[derive(Drop)]
pub enum Node {
    Lit(Lit),
    Field(FieldId),
    Call(FunctionId, Nodes),
    /// An element of an array.
    At(Boxed<Node>, i64),
    /// An array of a map.
    Key(Boxed<Node>, Text),
    /// Each element of an array.
    Each(Boxed<Node>),
    Test(Boxed<Node>, BuiltTest),
    Not(Boxed<Node>),
    And(Nodes),
    Xor(Nodes),
    Or(Nodes),
}
