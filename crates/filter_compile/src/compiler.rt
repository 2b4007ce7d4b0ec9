//! From a tree to steps. The parts of a node are taken from the last to the first, so the steps of each are written once.
ghost use Rattle.std.specs.Prelude.{◌≡◌, ◌++◌, ◌∷◌, [], length, not, IfOk};
ghost use Rattle.edge_base.specs.declared.expression.Lit.TheVariants as lit;
ghost use Rattle.list_store.specs.Listed.{list_kinds_of};
ghost use Rattle.type_check.specs.Trees.{tree_of};
ghost use Rattle.filter_compile.specs.declared.program.Step.TheVariants as step;
ghost use Rattle.filter_compile.specs.Compiled.{IsCodeOf, IsCodeOfAll, IsCodeOfChain, IsCodeOfXor, StandsFor};
ghost use Rattle.filter_compile.specs.Plain.{is_plain};

use crate::plain::is_plain;
use crate::program::{Filter, Step, Steps};
use edge_base::{Lit, Memory};
use list_store::Lists;
use sqlite_items::Items;
use std::alloc::Global;
use type_check::{Node, Nodes, Typed};

/// One step.
fn one(alloc: Global, step: Step) -> Result<Steps, Memory>
    ensures { IfOk result (λ steps. steps ≡ step ∷ []) }
{
    let mut steps = Items::new(alloc);
    steps.push(step)?;
    Ok(steps)
}

/// Steps, and one more.
fn and_then(steps: Steps, last: Step) -> Result<Steps, Memory>
    ensures { IfOk result (λ all. all ≡ steps ++ last ∷ []) }
{
    let mut steps = steps;
    steps.push(last)?;
    Ok(steps)
}

/// Steps, and further ones.
fn joined(steps: Steps, further: Steps) -> Result<Steps, Memory>
    ensures { IfOk result (λ all. all ≡ steps ++ further) }
{
    let mut steps = steps;
    steps.append(further)?;
    Ok(steps)
}

/// A member's steps, then those of the members after it, which are passed over where the member decides.
fn leaving(member: Steps, at: bool, further: Steps) -> Result<Steps, Memory>
    ensures { IfOk result (λ all. all ≡ (member ++ step.Leave at (length further) ∷ []) ++ further) }
{
    let over = further.len();
    joined(and_then(member, Step::Leave(at, over))?, further)
}

/// The steps of a chain that would end at a member of this truth, and has none.
fn undecided(alloc: Global, at: bool) -> Result<Steps, Memory>
    ensures { IfOk result (λ steps. steps ≡ step.Lit (lit.Bool (not at)) ∷ []) }
{
    one(alloc, Step::Lit(Lit::Bool(!at)))
}

/// The steps of an `xor` chain's later members and of one before them, then whether just one of the two is true.
fn differing(later: Steps, member: Steps) -> Result<Steps, Memory>
    ensures { IfOk result (λ all. all ≡ (later ++ member) ++ step.Differ ∷ []) }
{
    and_then(joined(later, member)?, Step::Differ)
}

/// The steps of some nodes, each of which loads a slot; the first node's is the last.
#[cycle(compiling)]
fn steps_of_all(alloc: Global, nodes: Nodes) -> Result<Steps, Memory>
    ensures { IfOk result (λ steps. IsCodeOfAll steps nodes) }
{
    let mut left = nodes;
    let mut steps = Items::new(alloc);
    'nodes: while let Some(node) = left.pop() {
        steps = joined(steps, steps_of(alloc, node)?)?;
    }
    Ok(steps)
}

/// The steps of a chain that ends at its first member of this truth.
#[cycle(compiling)]
fn steps_of_chain(alloc: Global, members: Nodes, at: bool) -> Result<Steps, Memory>
    ensures { IfOk result (λ steps. IsCodeOfChain steps at members) }
{
    let mut left = members;
    let mut steps = undecided(alloc, at)?;
    'members: while let Some(member) = left.pop() {
        steps = leaving(steps_of(alloc, member)?, at, steps)?;
    }
    Ok(steps)
}

/// The steps of an `xor` chain, which runs all its members.
#[cycle(compiling)]
fn steps_of_xor(alloc: Global, members: Nodes) -> Result<Steps, Memory>
    ensures { IfOk result (λ steps. IsCodeOfXor steps members) }
{
    let mut left = members;
    let mut steps = one(alloc, Step::Lit(Lit::Bool(false)))?;
    'members: while let Some(member) = left.pop() {
        steps = differing(steps, steps_of(alloc, member)?)?;
    }
    Ok(steps)
}

/// The steps of a node.
#[cycle(compiling)]
fn steps_of(alloc: Global, node: Node) -> Result<Steps, Memory>
    ensures { IfOk result (λ steps. IsCodeOf steps node) }
{
    match node {
        Node::Lit(lit) => one(alloc, Step::Lit(lit)),
        Node::Field(id) => one(alloc, Step::Field(id)),
        Node::Call(id, args) => {
            let count = args.len();
            and_then(steps_of_all(alloc, args)?, Step::Call(id, count))
        }
        Node::At(of, place) => and_then(steps_of(alloc, of.into_inner())?, Step::At(place)),
        Node::Key(of, key) => and_then(steps_of(alloc, of.into_inner())?, Step::Key(key)),
        Node::Each(of) => and_then(steps_of(alloc, of.into_inner())?, Step::Each),
        Node::Test(of, test) => and_then(steps_of(alloc, of.into_inner())?, Step::Test(test)),
        Node::Not(of) => and_then(steps_of(alloc, of.into_inner())?, Step::Not),
        Node::And(members) => steps_of_chain(alloc, members, false),
        Node::Xor(members) => steps_of_xor(alloc, members),
        Node::Or(members) => steps_of_chain(alloc, members, true),
    }
}

/// A flat filter of a checked expression, which gives the expression's value. What was built for the tree moves into it.
#[tactic(auto, using(crate::proofs::CodeLemmas::stands))]
pub fn compile(alloc: Global, typed: Typed, _lists: &Lists) -> Result<Filter, Memory>
    requires { typed.lists ≡ list_kinds_of _lists.now }
    ensures value { IfOk result (λ filter. StandsFor filter (tree_of typed.root)) }
    ensures lists { IfOk result (λ filter. filter.lists ≡ typed.lists) }
    ensures plain { IfOk result (λ filter. filter.plain ≡ is_plain (tree_of typed.root)) }
{
    let plain = is_plain(typed.root(), 33);
    let (root, lists) = typed.into_parts();
    let steps = steps_of(alloc, root.into_inner())?;
    Ok(Filter::of(steps, lists, plain))
}
