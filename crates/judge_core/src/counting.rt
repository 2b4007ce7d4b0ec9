//! The rules that count by the reply.

ghost use Rattle.std.specs.Prelude.{◌≡◌, slice_get, IfOk, IfSome};
ghost use Rattle.std.specs.Option.{option_copied};
ghost use Rattle.judge_core.specs.Backing.{CountsReply, KeptGoesOn};
ghost use Rattle.judge_core.specs.Limits.{counts_reply};
ghost use Rattle.judge_core.specs.Places.{carried_of, Suits};
ghost use Rattle.judge_core.specs.Values.{Listed, AreTold};

use crate::carried::{RulePlace, State};
use crate::kept::KeptCount;
use crate::places::find;
use crate::values::is_true;
use edge_base::{Memory, Moment};
use rate_plain::Ask;
use ruleset_model::{Config, Counting};
use std::alloc::Global;

/// A step that a rule asks which counts by the reply, and the place of the next such rule.
#[derive(Drop)]
pub struct KeptAsk {
    pub ask: Ask,
    pub next: usize,
}

/// Whether a reply is counted.
fn counts_by(
    alloc: Global,
    config: &Config,
    counting: &Option<Counting>,
    state: &State,
) -> Result<bool, Memory>
    ghost listed: { Listed }
    requires told { AreTold listed config.now }
    requires suits { IfSome counting.now (λ one. Suits config.now one.filter) }
    ensures { IfOk result (λ counts. counts ≡ counts_reply listed counting.now (carried_of config.now state.now)) }
{
    match counting {
        None => Ok(false),
        Some(counting) => {
            if !counting.reply {
                return Ok(false);
            }
            is_true(alloc, config, &counting.filter, state)
        }
    }
}

/// Whether a rule that was kept counts the reply.
#[tactic(auto, using(crate::proofs::BackLemmas::no_counting, crate::proofs::BackLemmas::counting_here))]
fn counts(alloc: Global, config: &Config, kept: &KeptCount, state: &State) -> Result<bool, Memory>
    ghost listed: { Listed }
    requires told { AreTold listed config.now }
    ensures { IfOk result (CountsReply listed config.now kept.now state.now) }
{
    let place = RulePlace {
        set: kept.holder,
        rule: kept.rule,
    };
    let Some(found) = find(config, place) else {
        return Ok(false);
    };
    match &found.rule.limit {
        None => Ok(false),
        Some(limit) => counts_by(alloc, config, &limit.counting, state),
    }
}

/// The rule at a place among those that were kept.
fn kept_at(kept: &[KeptCount], number: usize) -> Option<&KeptCount>
    ensures { option_copied result ≡ slice_get kept.now number }
{
    kept.get(number)
}

/// The next step that a rule asks which counts by the reply.
pub(crate) fn next_count(
    alloc: Global,
    config: &Config,
    at: Moment,
    kept: &[KeptCount],
    from: usize,
    state: &State,
) -> Result<Option<KeptAsk>, Memory>
    ghost listed: { Listed }
    requires told { AreTold listed config.now }
    ensures { IfOk result (KeptGoesOn listed config.now at kept.now from state.now) }
{
    let mut number = from;
    'kept: loop {
        let Some(one) = kept_at(kept, number) else {
            return Ok(None);
        };
        let next = number + 1;
        if counts(alloc, config, one, state)? {
            let key = one.key.copy(alloc)?;
            let ask = Ask {
                key,
                asked: at,
                adds: true,
            };
            return Ok(Some(KeptAsk { ask, next }));
        }
        number = next;
    }
}
