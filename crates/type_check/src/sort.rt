//! What an expression is to the one around it, and what is wanted of it.
ghost use Rattle.std.specs.Prelude.{◌≡◌, IfOk};
ghost use Rattle.type_check.specs.Sorts.{basic_of, wanted, suits, element_sort, array_sort, unpacked_sort, truth_sort, test_stand, first_stand, result_sort, inner};
ghost use Rattle.type_check.specs.Meaning.{is_quantifier, takes_whole};

use edge_base::{Lit, Memory};
use edge_fields::{Basic, FunctionId, Kind};

/// The values of an expression: of a kind, or, if it is unpacked, the elements of an array.
#[derive(Clone, Copy, Debug, PartialEq, Eq)]
pub enum Sort {
    Plain(Kind),
    Each(Basic),
}

/// What is wanted of a whole expression.
#[derive(Clone, Copy, Debug, PartialEq, Eq)]
pub enum Want {
    Truth,
    Text,
    /// A text, a number or an address.
    Single,
    Anything,
    Nothing,
}

/// Where an expression stands: it is the whole, or a part, which may be unpacked only where that is said.
#[derive(Clone, Copy, Debug, PartialEq, Eq)]
pub enum Stand {
    Whole(Want),
    Part,
    /// May be unpacked.
    Unpacked,
    /// May be a test of what is unpacked.
    Asked,
}

/// How far the walk over a tree has come: the number of the next node, and whether a `regex_replace` was met.
#[derive(Clone, Copy, Debug)]
pub struct Mark {
    pub node: u32,
    pub replaced: bool,
}

impl Mark {
    /// The mark behind the node itself, at its first part.
    pub fn inner(self) -> Result<Mark, Memory>
        ensures { IfOk result (λ mark. mark ≡ inner self) }
    {
        // More nodes than a number can count would not fit in memory.
        match self.node.checked_add(1) {
            Some(node) => Ok(Mark {
                node,
                replaced: self.replaced,
            }),
            None => Err(Memory),
        }
    }
}

/// The kind of a literal.
pub fn basic_of(lit: &Lit) -> Basic
    ensures { result ≡ basic_of lit.now }
{
    match lit {
        Lit::Text(_) => Basic::Text,
        Lit::Num(_) => Basic::Num,
        Lit::Addr(_) => Basic::Addr,
        Lit::Bool(_) => Basic::Bool,
    }
}

fn wanted(want: Want, sort: Sort) -> bool
    ensures { result ≡ wanted want sort }
{
    match (want, sort) {
        (Want::Anything, Sort::Plain(_))
        | (Want::Truth, Sort::Plain(Kind::One(Basic::Bool)))
        | (Want::Text | Want::Single, Sort::Plain(Kind::One(Basic::Text)))
        | (Want::Single, Sort::Plain(Kind::One(Basic::Num | Basic::Addr))) => true,
        _ => false,
    }
}

/// Whether what has this sort may stand here.
pub fn suits(stand: Stand, sort: Option<Sort>) -> bool
    ensures { result ≡ suits stand sort }
{
    match (stand, sort) {
        (_, None) => false,
        (Stand::Whole(want), Some(sort)) => wanted(want, sort),
        (_, Some(_)) => true,
    }
}

/// An element of an array.
pub fn element_sort(sort: Option<Sort>) -> Option<Sort>
    ensures { result ≡ element_sort sort }
{
    match sort {
        Some(Sort::Plain(Kind::Array(of))) => Some(Sort::Plain(Kind::One(of))),
        _ => None,
    }
}

/// The texts of a key of a map.
pub fn array_sort(sort: Option<Sort>) -> Option<Sort>
    ensures { result ≡ array_sort sort }
{
    match sort {
        Some(Sort::Plain(Kind::Map)) => Some(Sort::Plain(Kind::Array(Basic::Text))),
        _ => None,
    }
}

/// An array that is unpacked.
pub fn unpacked_sort(sort: Option<Sort>) -> Option<Sort>
    ensures { result ≡ unpacked_sort sort }
{
    match sort {
        Some(Sort::Plain(Kind::Array(of))) => Some(Sort::Each(of)),
        _ => None,
    }
}

/// A truth value, where one is wanted.
pub fn truth_sort(sort: Option<Sort>) -> Option<Sort>
    ensures { result ≡ truth_sort sort }
{
    match sort {
        Some(Sort::Plain(Kind::One(Basic::Bool))) => sort,
        _ => None,
    }
}

/// Where the operand of a test stands.
pub fn test_stand(stand: Stand) -> Stand
    ensures { result ≡ test_stand stand }
{
    match stand {
        Stand::Asked => Stand::Unpacked,
        _ => Stand::Part,
    }
}

/// Where the first argument of a function stands.
pub fn first_stand(id: FunctionId) -> Stand
    ensures { result ≡ first_stand id }
{
    match id {
        FunctionId::Any | FunctionId::All => Stand::Asked,
        FunctionId::Len | FunctionId::Join | FunctionId::HasValue | FunctionId::HasKey =>
            Stand::Part,
        _ => Stand::Unpacked,
    }
}

/// What a function gives, by its first argument.
pub fn result_sort(id: FunctionId, first: Option<Sort>) -> Option<Sort>
    ensures { result ≡ result_sort id first }
{
    match (first, id.kind()) {
        (Some(Sort::Each(_)), Kind::One(of)) => Some(Sort::Plain(Kind::Array(of))),
        (Some(Sort::Plain(_)), kind) => Some(Sort::Plain(kind)),
        _ => None,
    }
}
