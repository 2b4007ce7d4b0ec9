ghost use Rattle.std.specs.Prelude.{◌≡◌, ◌%◌, ◌==◌, map, true, IfOk};
ghost use Rattle.std.specs.List.{list_all, list_any, count_by};
ghost use Rattle.std.specs.Option.{option_copied};
ghost use Rattle.list_store.specs.Listed.{list_kinds_of};
ghost use Rattle.type_check.specs.Meaning.{tested};
ghost use Rattle.type_check.specs.Trees.{test_of, tree_of, is_placed};
ghost use Rattle.edge_fields.specs.Values.{value_of_lit};
ghost use Rattle.tree_eval.specs.Given.{tests_of, node_sense, node_senses, is_true_node, InEachOf, IsPlacedIn, ArePlacedIn};
ghost use Rattle.tree_eval.specs.Seen.{seen};
ghost use Rattle.tree_eval.specs.Settings.{IsValueOf, IsTruthOf};

use crate::calls::value_of_call;
use crate::indexes::{array_at, element_at, items_in};
use crate::sense::{Given, Sense};
use crate::testing::is_passed;
use edge_base::{Lit, Memory, Reply, Request};
use edge_fields::{Value, Values, field};
use list_store::Lists;
use sqlite_items::Items;
use std::alloc::Global;
use type_check::{BuiltTest, Node, Typed};

/// The value of a literal.
pub fn value_of_lit(alloc: Global, lit: &Lit) -> Result<Value, Memory>
    ensures { IfOk result (λ made. made ≡ value_of_lit lit.now) }
{
    match lit {
        Lit::Text(text) => Ok(Value::Text(text.copy(alloc)?)),
        Lit::Num(number) => Ok(Value::Num(*number)),
        Lit::Addr(addr) => Ok(Value::Addr(*addr)),
        Lit::Bool(truth) => Ok(Value::Bool(*truth)),
    }
}

/// Whether each of these values passes a test.
fn tests_of(
    alloc: Global,
    given: &Given<'_>,
    test: &BuiltTest,
    values: &[Value],
) -> Result<Values, Memory>
    requires { is_placed (list_kinds_of given.now.lists.now) test.now ≡ true }
    ensures { IfOk result (λ tests. InEachOf given.now (λ s. tests ≡ tests_of s (test_of test.now) values.now)) }
{
    let mut tests = Items::new(alloc);
    for value in values {
        tests.push(Value::Bool(is_passed(alloc, given.lists, test, value)?))?;
    }
    Ok(tests)
}

/// A test of what an operand gives: of a missing value it is false, and of an unpacked array it is the array of tests.
pub fn tested(
    alloc: Global,
    given: &Given<'_>,
    test: &BuiltTest,
    of: Sense,
) -> Result<Sense, Memory>
    requires { is_placed (list_kinds_of given.now.lists.now) test.now ≡ true }
    ensures { IfOk result (λ found. InEachOf given.now (λ s. seen found ≡ tested s (test_of test.now) (seen of))) }
{
    match of {
        Sense::Single(Some(value)) => {
            Ok(Sense::of_truth(is_passed(alloc, given.lists, test, &value)?))
        }
        Sense::Single(None) => Ok(Sense::of_truth(false)),
        Sense::Spread(Some(values)) => {
            let tests = tests_of(alloc, given, test, values.as_slice())?;
            Ok(Sense::Single(Some(Value::Array(tests))))
        }
        Sense::Spread(None) => Ok(Sense::Single(None)),
    }
}

/// What each of some nodes gives.
#[cycle(evaluating)]
fn senses_of(alloc: Global, given: &Given<'_>, nodes: &[Node]) -> Result<Vec<Sense>, Memory>
    requires { ArePlacedIn given.now nodes.now }
    ensures { IfOk result (λ senses. InEachOf given.now (λ s. map seen senses.items ≡ node_senses s nodes.now)) }
{
    let mut senses = Vec::new(alloc);
    for node in nodes {
        senses.push(sense_of(alloc, given, node)?)?;
    }
    Ok(senses)
}

/// Whether each member of a chain is true.
#[cycle(evaluating)]
fn are_true(alloc: Global, given: &Given<'_>, members: &[Node]) -> Result<bool, Memory>
    requires { ArePlacedIn given.now members.now }
    ensures { IfOk result (λ found. InEachOf given.now (λ s. found ≡ list_all (is_true_node s) members.now)) }
{
    for member in members {
        if !sense_of(alloc, given, member)?.is_true() {
            return Ok(false);
        }
    }
    Ok(true)
}

/// Whether some member of a chain is true.
#[cycle(evaluating)]
fn is_one_true(alloc: Global, given: &Given<'_>, members: &[Node]) -> Result<bool, Memory>
    requires { ArePlacedIn given.now members.now }
    ensures { IfOk result (λ found. InEachOf given.now (λ s. found ≡ list_any (is_true_node s) members.now)) }
{
    for member in members {
        if sense_of(alloc, given, member)?.is_true() {
            return Ok(true);
        }
    }
    Ok(false)
}

/// How many members of a chain are true.
#[cycle(evaluating)]
fn count_true(alloc: Global, given: &Given<'_>, members: &[Node]) -> Result<usize, Memory>
    requires { ArePlacedIn given.now members.now }
    ensures { IfOk result (λ found. InEachOf given.now (λ s. found ≡ count_by (is_true_node s) members.now)) }
{
    let mut count = 0;
    for member in members {
        if sense_of(alloc, given, member)?.is_true() {
            count += 1;
        }
    }
    Ok(count)
}

/// What a node gives to the one around it.
#[cycle(evaluating)]
fn sense_of(alloc: Global, given: &Given<'_>, node: &Node) -> Result<Sense, Memory>
    requires { IsPlacedIn given.now node.now }
    ensures { IfOk result (λ found. InEachOf given.now (λ s. seen found ≡ node_sense s node.now)) }
{
    match node {
        Node::Lit(lit) => Ok(Sense::Single(Some(value_of_lit(alloc, lit)?))),
        Node::Field(id) => Ok(Sense::Single(field(alloc, given.request, given.reply, *id)?)),
        Node::Call(id, args) => {
            let args = senses_of(alloc, given, args.as_slice())?;
            Ok(Sense::Single(value_of_call(alloc, *id, args)?))
        }
        Node::At(of, place) => {
            let array = sense_of(alloc, given, of.get())?.alone();
            Ok(Sense::Single(element_at(array, *place)))
        }
        Node::Key(of, key) => {
            let map = sense_of(alloc, given, of.get())?.alone();
            Ok(Sense::Single(array_at(alloc, map, key)?))
        }
        Node::Each(of) => {
            let array = sense_of(alloc, given, of.get())?.alone();
            Ok(Sense::Spread(items_in(array)))
        }
        Node::Test(of, test) => {
            let of = sense_of(alloc, given, of.get())?;
            tested(alloc, given, test, of)
        }
        Node::Not(of) => {
            let holds = sense_of(alloc, given, of.get())?.is_true();
            Ok(Sense::of_truth(!holds))
        }
        Node::And(members) => Ok(Sense::of_truth(are_true(alloc, given, members.as_slice())?)),
        Node::Xor(members) => {
            let count = count_true(alloc, given, members.as_slice())?;
            Ok(Sense::of_truth(count % 2 == 1))
        }
        Node::Or(members) => Ok(Sense::of_truth(is_one_true(alloc, given, members.as_slice())?)),
    }
}

/// The value of a checked expression on a request and its reply; none is a missing value.
pub fn eval(
    alloc: Global,
    typed: &Typed,
    request: &Request,
    reply: Option<&Reply>,
    lists: &Lists,
) -> Result<Option<Value>, Memory>
    requires { typed.now.lists ≡ list_kinds_of lists.now }
    ensures { IfOk result (IsValueOf lists.now request.now (option_copied reply.entry) (tree_of typed.now.root)) }
{
    let given = Given {
        request,
        reply,
        lists,
    };
    Ok(sense_of(alloc, &given, typed.root())?.alone())
}

/// Whether a checked expression is a condition that is true on a request and its reply; a missing value is not.
pub fn is_met(
    alloc: Global,
    typed: &Typed,
    request: &Request,
    reply: Option<&Reply>,
    lists: &Lists,
) -> Result<bool, Memory>
    requires { typed.now.lists ≡ list_kinds_of lists.now }
    ensures { IfOk result (IsTruthOf lists.now request.now (option_copied reply.entry) (tree_of typed.now.root)) }
{
    let given = Given {
        request,
        reply,
        lists,
    };
    Ok(sense_of(alloc, &given, typed.root())?.is_true())
}
