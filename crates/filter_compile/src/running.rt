//! Steps are run over a row of slots.
ghost use Rattle.std.specs.Prelude.{◌≡◌, ◌∷◌, drop, map, true, IfOk, OnOk};
ghost use Rattle.std.specs.Option.{option_copied};
ghost use Rattle.edge_base.specs.declared.expression.Expr.{Expr};
ghost use Rattle.list_store.specs.Listed.{list_kinds_of};
ghost use Rattle.tree_eval.specs.Given.{InEachOf};
ghost use Rattle.tree_eval.specs.Seen.{seen};
ghost use Rattle.tree_eval.specs.Settings.{IsValueOf};
ghost use Rattle.tree_eval.specs.declared.sense.Sense.TheVariants as sense;
ghost use Rattle.type_check.specs.Meaning.{Setting};
ghost use Rattle.filter_compile.specs.declared.program.Step.TheVariants as step;
ghost use Rattle.filter_compile.specs.Steps.{last_slot, other_slots, slots_after, passed_over, is_same, is_step_placed, taken, without};
ghost use Rattle.filter_compile.specs.Compiled.{StandsFor};
ghost use Rattle.filter_compile.specs.Slots.{slots_of};

use crate::program::{Filter, Step};
use edge_base::{Memory, Reply, Request};
use edge_fields::{Value, field};
use list_store::Lists;
use sqlite_items::Items;
use std::alloc::Global;
use tree_eval::{
    Given, Sense, array_at, element_at, items_in, tested, value_of_call, value_of_lit,
};

/// A row of slots.
type Slots = Items<Sense>;

/// Takes what stands in the last slot. Takes no memory.
#[tactic(auto, using(crate::proofs::SlotLemmas::last_is, crate::proofs::SlotLemmas::others_are))]
fn take_last(slots: &mut Slots) -> Sense
    ensures value { seen result ≡ last_slot (slots_of slots.old) }
    ensures others { slots_of slots.new ≡ other_slots (slots_of slots.old) }
{
    match slots.pop() {
        Some(last) => last,
        None => Sense::Single(None),
    }
}

/// Loads a new slot; the next step comes next.
#[tactic(auto, using(crate::proofs::SlotLemmas::loaded))]
fn load(slots: &mut Slots, sense: Sense) -> Result<usize, Memory>
    ensures slots { OnOk result (slots_of slots.new ≡ seen sense ∷ slots_of slots.old) }
    ensures next { IfOk result (λ over. over ≡ 0) }
{
    slots.push(sense)?;
    Ok(0)
}

/// The same of a value, or a missing one.
fn load_value(slots: &mut Slots, value: Option<Value>) -> Result<usize, Memory>
    ensures slots { OnOk result (slots_of slots.new ≡ seen (sense.Single value) ∷ slots_of slots.old) }
    ensures next { IfOk result (λ over. over ≡ 0) }
{
    load(slots, Sense::Single(value))
}

/// Takes this many last slots, the last one first.
fn take_many(alloc: Global, slots: &mut Slots, count: usize) -> Result<Vec<Sense>, Memory>
    ensures taken { IfOk result (λ senses. map seen senses.items ≡ taken count (slots_of slots.old)) }
    ensures others { OnOk result (slots_of slots.new ≡ without count (slots_of slots.old)) }
{
    let mut senses = Vec::new(alloc);
    'taking: while senses.len() < count {
        senses.push(take_last(slots))?;
    }
    Ok(senses)
}

/// Whether two truths are the same.
fn is_same(one: bool, other: bool) -> bool
    ensures { result ≡ is_same one other }
{
    if one { other } else { !other }
}

/// Leaves a chain where the last slot is this truth, or gives the slot up.
fn left(slots: &mut Slots, at: bool, over: usize) -> Result<usize, Memory>
    ensures over { IfOk result (λ passed. passed ≡ passed_over (step.Leave at over) (slots_of slots.old)) }
    ensures slots { OnOk result ((s : Setting) → slots_of slots.new ≡ slots_after s (step.Leave at over) (slots_of slots.old)) }
{
    let holds = take_last(slots).is_true();
    if is_same(at, holds) {
        load(slots, Sense::of_truth(at))?;
        Ok(over)
    } else {
        Ok(0)
    }
}

/// The steps after this many first ones. Takes no memory.
fn from(steps: &[Step], over: usize) -> &[Step]
    ensures { result.now ≡ drop over steps.now }
{
    if over < steps.len() {
        &steps[over..]
    } else {
        &[]
    }
}

/// Does a step, and tells how many of the next steps are passed over.
fn done(alloc: Global, given: &Given<'_>, step: &Step, slots: &mut Slots) -> Result<usize, Memory>
    requires { is_step_placed (list_kinds_of given.now.lists.now) step.now ≡ true }
    ensures over { IfOk result (λ over. over ≡ passed_over step.now (slots_of slots.old)) }
    ensures slots { OnOk result (InEachOf given.now (λ s. slots_of slots.new ≡ slots_after s step.now (slots_of slots.old))) }
{
    match step {
        Step::Lit(lit) => load_value(slots, Some(value_of_lit(alloc, lit)?)),
        Step::Field(id) => load_value(slots, field(alloc, given.request, given.reply, *id)?),
        Step::At(place) => {
            let of = take_last(slots);
            load_value(slots, element_at(of.alone(), *place))
        }
        Step::Key(key) => {
            let of = take_last(slots);
            load_value(slots, array_at(alloc, of.alone(), key)?)
        }
        Step::Each => {
            let of = take_last(slots);
            load(slots, Sense::Spread(items_in(of.alone())))
        }
        Step::Call(id, count) => {
            let args = take_many(alloc, slots, *count)?;
            load_value(slots, value_of_call(alloc, *id, args)?)
        }
        Step::Test(test) => {
            let of = take_last(slots);
            load(slots, tested(alloc, given, test, of)?)
        }
        Step::Not => {
            let holds = take_last(slots).is_true();
            load(slots, Sense::of_truth(!holds))
        }
        Step::Leave(at, over) => left(slots, *at, *over),
        Step::Differ => {
            let one = take_last(slots).is_true();
            let other = take_last(slots).is_true();
            load(slots, Sense::of_truth(!is_same(one, other)))
        }
    }
}

impl Filter {
    /// The value of the expression that the filter stands for on a request and its reply; none is a missing value.
    pub fn run(
        &self,
        alloc: Global,
        request: &Request,
        reply: Option<&Reply>,
        lists: &Lists,
    ) -> Result<Option<Value>, Memory>
        requires { self.now.lists ≡ list_kinds_of lists.now }
        ensures { (e : Expr) → StandsFor self.now e → IfOk result (IsValueOf lists.now request.now (option_copied reply.entry) e) }
    {
        let given = Given {
            request,
            reply,
            lists,
        };
        let mut slots = Items::new(alloc);
        let mut steps = self.steps();
        'running: while !steps.is_empty() {
            let over = done(alloc, &given, &steps[0], &mut slots)?;
            steps = from(from(steps, 1), over);
        }
        Ok(take_last(&mut slots).alone())
    }
}
