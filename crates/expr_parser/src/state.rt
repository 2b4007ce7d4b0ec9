use crate::stack::Stack;
use crate::testing::Testing;
use edge_base::{Expr, Exprs, Lit, Text};

/// One level: the members that are whole of its chain, of its xor and of its and, and the `not`s that are pending.
#[derive(Drop)]
pub struct Frame {
    pub ors: Exprs,
    pub xors: Exprs,
    pub ands: Exprs,
    pub nots: u32,
}

/// What opened a level: a group, or a call with its name and the arguments that are whole.
#[derive(Drop)]
pub enum Opened {
    Group,
    Call(Text, Exprs),
}

/// An open `(`, and the level outside.
#[derive(Drop)]
pub struct Level {
    pub opened: Opened,
    pub outer: Frame,
}

/// What was read of the innermost level's last part, which decides what may come next.
#[derive(Drop)]
pub enum Mode {
    /// An expression begins.
    Begin,
    /// A unit begins.
    Want,
    /// A literal that is an expression.
    Literal(Lit),
    /// A name, which may be that of a call.
    Named(Text),
    /// A path, which may go on.
    Path(Expr),
    /// `true` or `false`.
    Truth(bool),
    /// A path and `[`.
    Index(Expr),
    /// A path with its index, but for the `]`.
    IndexEnd(Expr),
    /// An operand and a part of a test.
    Testing(Expr, Testing),
    /// A unit that is whole.
    Done(Expr),
}

/// Where the machine stands: what came last, the innermost level and those around it.
#[derive(Drop)]
pub struct State {
    pub mode: Mode,
    pub top: Frame,
    pub below: Stack<Level>,
}
