ghost use Rattle.std.specs.Prelude.{◌≡◌, map, option_map, IfOk, IfSome};
ghost use Rattle.serde_json.specs.View.{view};
ghost use Rattle.ruleset_model.specs.Data.{act_data, limit_data, rule_data};
ghost use Rattle.config_read.specs.Sets.{data_of};
ghost use Rattle.config_read.specs.Refusals.{IsAnswerOf};
ghost use Rattle.config_read.specs.RulesOf.{action_table, action_at, rule_at, act_at, rules_at};
ghost use Rattle.config_read.specs.Filters.{IsActBuilt, IsLimitBuilt, IsRuleBuilt, AreRulesBuilt};
ghost use Rattle.config_read.specs.Limits.{limit_at};
ghost use Rattle.config_read.specs.Here.{deed_here, rule_here, rules_here};

use crate::action::Action;
use crate::acts::act_of;
use crate::conditions::{Condition, condition_of};
use crate::fault::{Cause, ConfigFault};
use crate::heads::{Head, RulesBefore, head_of};
use crate::ids::keep;
use crate::limits::limit_of;
use crate::members::{needed_text, text};
use crate::names::{action_of, is_nested, is_placed};
use crate::places::nth;
use crate::refusals::{member_refusal, refuse};
use crate::sets::Sets;
use edge_fields::Scheme;
use ruleset_model::{Act, Limit, Phase, Rule, Rules, RulesetKind};
use serde_json::Value;
use sqlite_items::Items;
use std::alloc::Global;
use std::collections::BTreeMap;

/// The action of a rule in a ruleset of the kind and the phase.
#[tactic(auto, unfolding(crate::specs::RulesOf::action_table))]
fn action_in(
    alloc: Global,
    kind: RulesetKind,
    phase: Phase,
    place: &[u8],
    value: &Value,
) -> Result<Action, ConfigFault>
    ensures table { IsAnswerOf result (action_table kind phase place.now (view value.now)) }
    ensures value { IfOk result (λ action. action ≡ action_at (view value.now)) }
{
    let name = needed_text(alloc, place, "action", value)?;
    let Some(action) = action_of(name) else {
        return Err(member_refusal(alloc, place, "action", Cause::UnknownAction));
    };
    let is_misplaced = !is_placed(phase, action);
    refuse(alloc, is_misplaced, place, "action", Cause::ActionPlace)?;
    refuse(
        alloc,
        is_nested(kind, action),
        place,
        "action",
        Cause::NestedExecute,
    )?;
    Ok(action)
}

/// What a rule does, and its limit.
#[derive(Drop)]
struct Deed {
    act: Act,
    limit: Option<Limit>,
}

/// What the rule at a place does, and its limit.
#[tactic(auto, unfolding(crate::specs::RulesOf::deed_table))]
fn deed_of(
    alloc: Global,
    scheme: &Scheme,
    all: &Sets,
    kind: RulesetKind,
    phase: Phase,
    place: &[u8],
    value: &Value,
) -> Result<Deed, ConfigFault>
    ensures table { IsAnswerOf result (deed_here scheme.now all.now kind phase place.now value.now) }
    ensures act { IfOk result (λ deed. act_data deed.act ≡ act_at (data_of all.now) phase (view value.now)) }
    ensures limit { IfOk result (λ deed. option_map limit_data deed.limit ≡ limit_at (view value.now)) }
    ensures act_built { IfOk result (λ deed. IsActBuilt scheme.now phase deed.act) }
    ensures limit_built { IfOk result (λ deed. IfSome deed.limit (IsLimitBuilt scheme.now)) }
{
    let action = action_in(alloc, kind, phase, place, value)?;
    let act = act_of(alloc, scheme, all, phase, action, place, value)?;
    let limit = limit_of(alloc, scheme, phase, action, place, value)?;
    Ok(Deed { act, limit })
}

/// One rule, behind those before it. `all` are the rulesets of the document.
#[tactic(auto, unfolding(crate::specs::RulesOf::rule_table, crate::specs::RulesOf::rule_at))]
fn rule_of(
    alloc: Global,
    scheme: &Scheme,
    all: &Sets,
    kind: RulesetKind,
    phase: Phase,
    rules: &[u8],
    earlier: &RulesBefore,
    value: &Value,
) -> Result<Rule, ConfigFault>
    ensures table { IsAnswerOf result (rule_here scheme.now all.now kind phase rules.now earlier.now.rules.now value.now) }
    ensures value { IfOk result (λ rule. rule_data rule ≡ rule_at (data_of all.now) phase (view value.now)) }
    ensures built { IfOk result (IsRuleBuilt scheme.now phase) }
{
    let place = nth(alloc, rules, earlier.rules.len())?;
    let place = place.bytes();
    let head = head_of(alloc, place, earlier, value)?;
    let condition = condition_of(alloc, scheme, phase, place, value)?;
    let Deed { act, limit } = deed_of(alloc, scheme, all, kind, phase, place, value)?;
    let Head {
        id,
        label,
        description,
        enabled,
        tags,
    } = head;
    let Condition { source, filter } = condition;
    Ok(Rule {
        id,
        label,
        description,
        source,
        tags,
        enabled,
        filter,
        act,
        limit,
    })
}

/// The rules of these elements.
#[tactic(auto, using(crate::proofs::IdLemmas::no_rules))]
pub(crate) fn each_rule<'v>(
    alloc: Global,
    scheme: &Scheme,
    all: &Sets,
    kind: RulesetKind,
    phase: Phase,
    place: &[u8],
    values: &'v [Value],
) -> Result<Rules, ConfigFault>
    ensures table { IsAnswerOf result (rules_here scheme.now all.now kind phase place.now values.now) }
    ensures value { IfOk result (λ made. map rule_data made ≡ rules_at (data_of all.now) phase (map view values.now)) }
    ensures built { IfOk result (AreRulesBuilt scheme.now phase) }
{
    let mut rules = Items::new(alloc);
    let mut ids = BTreeMap::new(alloc);
    for value in values {
        let earlier = RulesBefore {
            rules: rules.as_slice(),
            ids: &ids,
        };
        let rule = rule_of(alloc, scheme, all, kind, phase, place, &earlier, value)?;
        keep(&mut ids, text(value, "id"), rules.len())?;
        rules.push(rule)?;
    }
    Ok(rules)
}
