//! Which trees are plain.
ghost use Rattle.std.specs.Prelude.{◌≡◌};
ghost use Rattle.std.specs.List.{list_all};
ghost use Rattle.type_check.specs.Trees.{test_of};
ghost use Rattle.filter_compile.specs.Plain.{is_plain_field, is_plain_test, is_plain_node};

use edge_fields::FieldId;
use type_check::{BuiltTest, Node};

/// Whether a field can be read in place.
fn is_plain_field(id: FieldId) -> bool
    ensures { result ≡ is_plain_field id }
{
    matches!(
        id,
        FieldId::Method
            | FieldId::Path
            | FieldId::Query
            | FieldId::Host
            | FieldId::Source
            | FieldId::Ssl
            | FieldId::Timestamp
            | FieldId::ResponseCode
    )
}

/// Whether a test takes no memory.
fn is_plain_test(test: &BuiltTest) -> bool
    ensures { result ≡ is_plain_test (test_of test.now) }
{
    match test {
        BuiltTest::Matches(_) => false,
        _ => true,
    }
}

/// Whether each member of a chain is plain.
#[cycle(looking)]
fn are_plain(members: &[Node], room: u8) -> bool
    ensures { result ≡ list_all (is_plain_node room) members.now }
{
    for member in members {
        if !is_plain(member, room) {
            return false;
        }
    }
    true
}

/// Whether a tree is plain, with at most so many `xor` chains one within another. Takes no memory.
#[cycle(looking)]
pub(crate) fn is_plain(node: &Node, room: u8) -> bool
    ensures { result ≡ is_plain_node room node.now }
{
    match node {
        Node::Lit(_) => true,
        Node::Field(id) => is_plain_field(*id),
        Node::Call(_, _) => false,
        Node::At(of, _) => is_plain(of.get(), room),
        Node::Key(_, _) => false,
        Node::Each(of) => is_plain(of.get(), room),
        Node::Test(of, test) => is_plain_test(test) && is_plain(of.get(), room),
        Node::Not(of) => is_plain(of.get(), room),
        Node::And(members) => are_plain(members.as_slice(), room),
        Node::Xor(members) => room > 0 && are_plain(members.as_slice(), room - 1),
        Node::Or(members) => are_plain(members.as_slice(), room),
    }
}
