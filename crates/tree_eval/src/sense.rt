ghost use Rattle.std.specs.Prelude.{◌≡◌};
ghost use Rattle.type_check.specs.Meaning.{alone, is_true, truth};
ghost use Rattle.tree_eval.specs.Seen.{seen};

use edge_base::{Reply, Request};
use edge_fields::{Value, Values};
use list_store::Lists;

/// What a tree is evaluated on.
#[derive(Clone, Copy)]
pub struct Given<'a> {
    pub request: &'a Request,
    pub reply: Option<&'a Reply>,
    pub lists: &'a Lists,
}

/// What a node gives to the one around it: a value, or, if it is unpacked, the elements of an array.
#[derive(Drop)]
pub enum Sense {
    Single(Option<Value>),
    Spread(Option<Values>),
}

impl Sense {
    /// A truth value. Takes no memory.
    pub fn of_truth(holds: bool) -> Sense
        ensures { seen result ≡ truth holds }
    {
        Sense::Single(Some(Value::Bool(holds)))
    }

    /// The value, where a value is wanted. Takes no memory.
    pub fn alone(self) -> Option<Value>
        ensures { result ≡ alone (seen self) }
    {
        match self {
            Sense::Single(value) => value,
            Sense::Spread(_) => None,
        }
    }

    /// Whether it is a truth value, and true. Takes no memory.
    pub fn is_true(self) -> bool
        ensures { result ≡ is_true (seen self) }
    {
        match self {
            Sense::Single(Some(Value::Bool(truth))) => truth,
            _ => false,
        }
    }
}
