ghost use Rattle.std.specs.Prelude.{◌≡◌, Ok, IfOk};

use crate::address::Addr;
use crate::refusal::Memory;
use crate::text::Text;
use sqlite_items::{Boxed, Items};
use std::alloc::Global;

/// A literal.
#[derive(Debug, PartialEq, Eq, Drop)]
pub enum Lit {
    Text(Text),
    Num(i64),
    Addr(Addr),
    Bool(bool),
}

/// The six orders.
#[derive(Clone, Copy, Debug, PartialEq, Eq)]
pub enum Order {
    Eq,
    Ne,
    Lt,
    Le,
    Gt,
    Ge,
}

/// One item of `in { .. }`.
#[derive(Debug, PartialEq, Eq, Drop)]
pub enum Item {
    One(Lit),
    /// The numbers from the first to the second.
    Nums(i64, i64),
    /// The addresses from the first to the second.
    Addrs(Addr, Addr),
    /// The addresses that share their first bits with this one, and how many bits.
    Block(Addr, u16),
}

/// The items of `in { .. }`.
pub type ListedItems = Items<Item>;

/// What an operand is tested for.
#[derive(Debug, Drop)]
pub enum Test {
    Order(Order, Lit),
    Contains(Text),
    Matches(Text),
    Wild(Text),
    StrictWild(Text),
    Among(ListedItems),
    Listed(Text),
}

/// A list of expressions.
pub type Exprs = Items<Expr>;

/// An expression of the Rules language. A chain of several members is one node.
#[derive(Drop)]
pub enum Expr {
    Lit(Lit),
    Field(Text),
    Call(Text, Exprs),
    /// An element of an array.
    At(Boxed<Expr>, i64),
    /// An array of a map.
    Key(Boxed<Expr>, Text),
    /// Each element of an array.
    Each(Boxed<Expr>),
    Test(Boxed<Expr>, Test),
    Not(Boxed<Expr>),
    And(Exprs),
    Xor(Exprs),
    Or(Exprs),
}

impl Lit {
    pub fn copy(&self, alloc: Global) -> Result<Lit, Memory>
        ensures { IfOk result (λ lit. lit ≡ self.now) }
    {
        match self {
            Lit::Text(text) => Ok(Lit::Text(text.copy(alloc)?)),
            Lit::Num(number) => Ok(Lit::Num(*number)),
            Lit::Addr(addr) => Ok(Lit::Addr(*addr)),
            Lit::Bool(truth) => Ok(Lit::Bool(*truth)),
        }
    }
}

impl Order {
    /// Takes no memory.
    pub fn copy(&self) -> Result<Order, Memory>
        ensures { result ≡ Ok self.now }
    {
        Ok(*self)
    }
}

impl Item {
    pub fn copy(&self, alloc: Global) -> Result<Item, Memory>
        ensures { IfOk result (λ item. item ≡ self.now) }
    {
        match self {
            Item::One(lit) => Ok(Item::One(lit.copy(alloc)?)),
            Item::Nums(first, last) => Ok(Item::Nums(*first, *last)),
            Item::Addrs(first, last) => Ok(Item::Addrs(*first, *last)),
            Item::Block(addr, bits) => Ok(Item::Block(*addr, *bits)),
        }
    }
}

/// A copy of each item, in order.
pub fn copy_items(alloc: Global, items: &[Item]) -> Result<ListedItems, Memory>
    ensures { IfOk result (λ copy. copy ≡ items.now) }
{
    let mut copy = Items::new(alloc);
    for item in items {
        copy.push(item.copy(alloc)?)?;
    }
    Ok(copy)
}

impl Test {
    pub fn copy(&self, alloc: Global) -> Result<Test, Memory>
        ensures { IfOk result (λ test. test ≡ self.now) }
    {
        match self {
            Test::Order(order, lit) => Ok(Test::Order(*order, lit.copy(alloc)?)),
            Test::Contains(text) => Ok(Test::Contains(text.copy(alloc)?)),
            Test::Matches(pattern) => Ok(Test::Matches(pattern.copy(alloc)?)),
            Test::Wild(pattern) => Ok(Test::Wild(pattern.copy(alloc)?)),
            Test::StrictWild(pattern) => Ok(Test::StrictWild(pattern.copy(alloc)?)),
            Test::Among(items) => Ok(Test::Among(copy_items(alloc, items.as_slice())?)),
            Test::Listed(name) => Ok(Test::Listed(name.copy(alloc)?)),
        }
    }
}

/// A copy of a sub-expression, in a box of its own.
#[cycle(copying)]
fn copy_boxed(alloc: Global, expr: &Boxed<Expr>) -> Result<Boxed<Expr>, Memory>
    ensures { IfOk result (λ copy. copy ≡ expr.now) }
{
    Ok(Boxed::new(alloc, expr.get().copy(alloc)?)?)
}

/// A copy of each expression, in order.
#[cycle(copying)]
pub fn copy_exprs(alloc: Global, exprs: &[Expr]) -> Result<Exprs, Memory>
    ensures { IfOk result (λ copy. copy ≡ exprs.now) }
{
    let mut copy = Items::new(alloc);
    for expr in exprs {
        copy.push(expr.copy(alloc)?)?;
    }
    Ok(copy)
}

impl Expr {
    #[cycle(copying)]
    pub fn copy(&self, alloc: Global) -> Result<Expr, Memory>
        ensures { IfOk result (λ expr. expr ≡ self.now) }
    {
        match self {
            Expr::Lit(lit) => Ok(Expr::Lit(lit.copy(alloc)?)),
            Expr::Field(name) => Ok(Expr::Field(name.copy(alloc)?)),
            Expr::Call(name, args) => {
                Ok(Expr::Call(name.copy(alloc)?, copy_exprs(alloc, args.as_slice())?))
            }
            Expr::At(of, at) => Ok(Expr::At(copy_boxed(alloc, of)?, *at)),
            Expr::Key(of, key) => Ok(Expr::Key(copy_boxed(alloc, of)?, key.copy(alloc)?)),
            Expr::Each(of) => Ok(Expr::Each(copy_boxed(alloc, of)?)),
            Expr::Test(of, test) => Ok(Expr::Test(copy_boxed(alloc, of)?, test.copy(alloc)?)),
            Expr::Not(of) => Ok(Expr::Not(copy_boxed(alloc, of)?)),
            Expr::And(members) => Ok(Expr::And(copy_exprs(alloc, members.as_slice())?)),
            Expr::Xor(members) => Ok(Expr::Xor(copy_exprs(alloc, members.as_slice())?)),
            Expr::Or(members) => Ok(Expr::Or(copy_exprs(alloc, members.as_slice())?)),
        }
    }
}
