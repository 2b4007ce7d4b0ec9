//! All skips of a judging as one, for the judging of its reply.

ghost use Rattle.std.specs.Prelude.{◌≡◌, [], IfOk, OnOk};
ghost use Rattle.judge_core.specs.Merging.{onto_skipping, with_one};
ghost use Rattle.judge_core.specs.Places.{rule_at, skips_in, skips_of};
ghost use Rattle.judge_core.specs.Skipping.{before_id, behind_id, ids_under, put_entry, put_entries};
ghost use Rattle.judge_core.specs.Skipping.{no_skips, with_skips, merged};

use crate::carried::{RulePlace, State};
use crate::changing::is_before;
use crate::skips::skips_at;
use edge_base::{Memory, Text, Texts, copy_texts};
use ruleset_model::{Config, SkippedRules, Skips, copy_phases};
use sqlite_items::Items;
use std::alloc::Global;

/// The entries of rulesets whose ids stand before this one.
fn before_id(alloc: Global, entries: &[(Text, Texts)], id: &Text) -> Result<SkippedRules, Memory>
    ensures { IfOk result (λ kept. kept ≡ before_id id.now entries.now) }
{
    let mut kept = Items::new(alloc);
    for (one, ids) in entries {
        if is_before(one, id) {
            kept.push((one.copy(alloc)?, copy_texts(alloc, ids.as_slice())?))?;
        }
    }
    Ok(kept)
}

/// The entries of rulesets whose ids stand behind this one.
fn behind_id(alloc: Global, entries: &[(Text, Texts)], id: &Text) -> Result<SkippedRules, Memory>
    ensures { IfOk result (λ kept. kept ≡ behind_id id.now entries.now) }
{
    let mut kept = Items::new(alloc);
    for (one, ids) in entries {
        if is_before(id, one) {
            kept.push((one.copy(alloc)?, copy_texts(alloc, ids.as_slice())?))?;
        }
    }
    Ok(kept)
}

/// The ids of rules under a ruleset's id.
fn ids_under(alloc: Global, entries: &[(Text, Texts)], id: &Text) -> Result<Texts, Memory>
    ensures { IfOk result (λ all. all ≡ ids_under id.now entries.now []) }
{
    let mut all = Items::new(alloc);
    for (one, ids) in entries {
        if one == id {
            all.append(copy_texts(alloc, ids.as_slice())?)?;
        }
    }
    Ok(all)
}

/// The entries with one more.
fn put_entry(
    alloc: Global,
    id: &Text,
    ids: &[Text],
    entries: &[(Text, Texts)],
) -> Result<SkippedRules, Memory>
    ensures { IfOk result (λ put. put ≡ put_entry (id.now, ids.now) entries.now) }
{
    let mut put = before_id(alloc, entries, id)?;
    let rest = behind_id(alloc, entries, id)?;
    let mut all = ids_under(alloc, entries, id)?;
    all.append(copy_texts(alloc, ids)?)?;
    put.push((id.copy(alloc)?, all))?;
    put.append(rest)?;
    Ok(put)
}

/// Puts more entries.
fn put_entries(
    alloc: Global,
    more: &[(Text, Texts)],
    entries: &mut SkippedRules,
) -> Result<(), Memory>
    ensures { OnOk result (entries.new ≡ put_entries more.now entries.old) }
{
    for (id, ids) in more {
        *entries = put_entry(alloc, id, ids.as_slice(), entries.as_slice())?;
    }
    Ok(())
}

/// Nothing is skipped. Takes no memory.
fn no_skips(alloc: Global) -> Skips
    ensures { result ≡ no_skips }
{
    Skips {
        current: false,
        phases: Items::new(alloc),
        rulesets: Items::new(alloc),
        rules: Items::new(alloc),
    }
}

/// Adds what one skips from here on.
fn add_skips(alloc: Global, one: &Skips, all: &mut Skips) -> Result<(), Memory>
    ensures { OnOk result (all.new ≡ with_skips one.now all.old) }
{
    all.phases
        .append(copy_phases(alloc, one.phases.as_slice())?)?;
    all.rulesets
        .append(copy_texts(alloc, one.rulesets.as_slice())?)?;
    put_entries(alloc, one.rules.as_slice(), &mut all.rules)
}

/// Adds what the rule at the places skips, if anything.
fn add_at(alloc: Global, config: &Config, place: RulePlace, all: &mut Skips) -> Result<(), Memory>
    ensures { OnOk result (all.new ≡ with_one (skips_in (rule_at config.now place)) all.old) }
{
    match skips_at(config, place) {
        Some(skips) => add_skips(alloc, skips, all),
        None => Ok(()),
    }
}

/// Adds what the rules at some places skip.
fn add_skipping(
    alloc: Global,
    config: &Config,
    places: &[RulePlace],
    all: &mut Skips,
) -> Result<(), Memory>
    ensures { OnOk result (all.new ≡ onto_skipping config.now places.now all.old) }
{
    for place in places {
        add_at(alloc, config, *place, all)?;
    }
    Ok(())
}

/// The skips of the request, where a reply is judged.
fn from_earlier(alloc: Global, earlier: &Option<Skips>) -> Result<Skips, Memory>
    ensures { IfOk result (λ all. all ≡ with_one earlier.now no_skips) }
{
    let mut all = no_skips(alloc);
    match earlier {
        Some(skips) => add_skips(alloc, skips, &mut all)?,
        None => {}
    }
    Ok(all)
}

/// All skips as one.
#[tactic(auto, using(crate::proofs::MergeLemmas::all_merged))]
pub(crate) fn merged(alloc: Global, config: &Config, state: &State) -> Result<Skips, Memory>
    ensures { IfOk result (λ all. all ≡ merged (skips_of config.now state.now)) }
{
    let mut all = from_earlier(alloc, &state.earlier)?;
    add_skipping(alloc, config, state.skipping.as_slice(), &mut all)?;
    Ok(all)
}
