ghost use Rattle.std.specs.Prelude.{◌≡◌, true};
ghost use Rattle.type_check.specs.Trees.{are_placed};

use crate::node::Node;
use edge_fields::{Kind, ListKinds};
use sqlite_items::Boxed;

/// A checked expression: its tree, the kind of its values, and the named lists that it may speak of.
#[derive(Drop)]
pub struct Typed {
    root: Boxed<Node>,
    kind: Kind,
    lists: ListKinds,
    ghost placed: { are_placed lists root ≡ true },
}

impl Typed {
    /// A tree of a kind, each of whose lists is named by its place among these.
    pub(crate) fn of(root: Boxed<Node>, kind: Kind, lists: ListKinds) -> Typed
        requires { are_placed lists root ≡ true }
        ensures root { result.root ≡ root }
        ensures kind { result.kind ≡ kind }
        ensures lists { result.lists ≡ lists }
    {
        Typed { root, kind, lists }
    }

    /// The tree. Takes no memory.
    pub fn root(&self) -> &Node
        ensures { result.now ≡ self.now.root }
    {
        self.root.get()
    }

    /// The kind of the tree's values. Takes no memory.
    pub fn kind(&self) -> Kind
        ensures { result ≡ self.now.kind }
    {
        self.kind
    }

    /// The named lists of the scheme under which the tree was checked. Takes no memory.
    pub fn lists(&self) -> &ListKinds
        ensures { result.now ≡ self.now.lists }
    {
        &self.lists
    }

    /// The tree with all that was built for it, and the named lists that it may speak of. Takes no memory.
    pub fn into_parts(self) -> (Boxed<Node>, ListKinds)
        ensures root { result.0 ≡ self.root }
        ensures lists { result.1 ≡ self.lists }
        ensures placed { are_placed result.1 result.0 ≡ true }
    {
        let Typed { root, lists, .. } = self;
        (root, lists)
    }
}
