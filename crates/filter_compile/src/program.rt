ghost use Rattle.std.specs.Prelude.{◌≡◌, true};
ghost use Rattle.filter_compile.specs.Steps.{are_steps_placed};

use edge_base::{Lit, Text};
use edge_fields::{FieldId, FunctionId, ListKinds};
use sqlite_items::Items;
use type_check::BuiltTest;

/// One step. The slots stand in a row, each by its number, and a step works at the row's end.
#[derive(Drop)]
pub(crate) enum Step {
    /// Loads a literal into a new slot.
    Lit(Lit),
    /// Loads a field into a new slot.
    Field(FieldId),
    /// Takes an element of the last slot's array.
    At(i64),
    /// Takes an array of the last slot's map.
    Key(Text),
    /// Unpacks the last slot's array.
    Each,
    /// Calls a function with this many last slots, the last one first, and puts its value in their place.
    Call(FunctionId, usize),
    /// Tests the last slot.
    Test(BuiltTest),
    /// Turns the last slot's truth.
    Not,
    /// Where the last slot is true, or else where it is not, keeps that truth and passes over this many steps; otherwise
    /// gives the slot up.
    Leave(bool, usize),
    /// Puts into the place of the two last slots whether just one of them is true.
    Differ,
}

/// A list of steps.
pub(crate) type Steps = Items<Step>;

/// A checked expression as a flat list of steps, with the named lists that it may speak of.
#[derive(Drop)]
pub struct Filter {
    steps: Steps,
    lists: ListKinds,
    plain: bool,
    ghost placed: { are_steps_placed lists steps ≡ true },
}

impl Filter {
    /// Steps each of whose lists is named by its place among these, and whether they are a plain expression's.
    pub(crate) fn of(steps: Steps, lists: ListKinds, plain: bool) -> Filter
        requires { are_steps_placed lists steps ≡ true }
        ensures steps { result.steps ≡ steps }
        ensures lists { result.lists ≡ lists }
        ensures plain { result.plain ≡ plain }
    {
        Filter {
            steps,
            lists,
            plain,
        }
    }

    /// The steps, from first to last. Takes no memory.
    pub(crate) fn steps(&self) -> &[Step]
        ensures steps { result.now ≡ self.now.steps }
        ensures placed { are_steps_placed self.now.lists result.now ≡ true }
    {
        self.steps.as_slice()
    }

    /// The named lists of the scheme under which the expression was checked. Takes no memory.
    pub fn lists(&self) -> &ListKinds
        ensures { result.now ≡ self.now.lists }
    {
        &self.lists
    }

    /// Whether the expression is plain: it has no function, no map and no `matches`, its fields are the method, the path,
    /// the query, the host, the peer, `ssl`, the second and the reply's status, and at most 33 `xor` chains stand one
    /// within another. Takes no memory.
    pub fn plain(&self) -> bool
        ensures { result ≡ self.now.plain }
    {
        self.plain
    }
}
