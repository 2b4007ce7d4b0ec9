ghost use Rattle.std.specs.Prelude.{◌≡◌, map, codes, true, IfOk};
ghost use Rattle.std.specs.List.{list_all};
ghost use Rattle.serde_json.specs.View.{view};
ghost use Rattle.serde_json.specs.Find.{as_bool};
ghost use Rattle.ruleset_model.specs.Data.{rule_data};
ghost use Rattle.ruleset_model.specs.Forms.{is_id_byte, is_id};
ghost use Rattle.config_read.specs.Refusals.{IsAnswerOf};
ghost use Rattle.config_read.specs.Members.{text, texts, value_or, needed_form};
ghost use Rattle.config_read.specs.Forms.{id};
ghost use Rattle.config_read.specs.Ids.{AreIdsOf};
ghost use Rattle.config_read.specs.RulesOf.{has_rule, rule_id_table, head_table};

use crate::fault::{Cause, ConfigFault};
use crate::ids::{Ids, is_kept};
use crate::members::{an_object, text_or, texts_or_none, truth_or};
use crate::refusals::{member_refusal, refuse};
use edge_base::{Text, Texts};
use ruleset_model::Rule;
use serde_json::Value;
use std::alloc::Global;

/// The most bytes of an id.
const MAX_ID: usize = 64;

/// What comes before the expression of a rule.
#[derive(Drop)]
pub(crate) struct Head {
    pub id: Text,
    pub label: Text,
    pub description: Text,
    pub enabled: bool,
    pub tags: Texts,
}

fn is_id_byte(byte: u8) -> bool
    ensures { result ≡ is_id_byte byte }
{
    byte.is_ascii_alphanumeric() || byte == b'_' || byte == b'-'
}

fn are_id_bytes(text: &[u8]) -> bool
    ensures { result ≡ list_all is_id_byte text.now }
{
    text.iter().all(|&byte| is_id_byte(byte))
}

fn is_id(text: &[u8]) -> bool
    ensures { result ≡ is_id text.now }
{
    0 < text.len() && text.len() <= MAX_ID && are_id_bytes(text)
}

/// The id of a rule or a ruleset.
pub(crate) fn id_of<'v>(
    alloc: Global,
    place: &[u8],
    value: &'v Value,
) -> Result<&'v [u8], ConfigFault>
    ensures table { IsAnswerOf result (needed_form id place.now (codes "id") (view value.now)) }
    ensures value { IfOk result (λ found. found.now ≡ text (codes "id") (view value.now)) }
{
    let Some(member) = value.get("id") else {
        return Err(member_refusal(alloc, place, "id", Cause::Missing));
    };
    let Some(text) = member.as_str() else {
        return Err(member_refusal(alloc, place, "id", Cause::Shape));
    };
    if !is_id(text.as_bytes()) {
        return Err(member_refusal(alloc, place, "id", Cause::Shape));
    }
    Ok(text.as_bytes())
}

/// The rules before another, with their ids.
#[derive(Drop)]
pub(crate) struct RulesBefore<'a, 'v> {
    pub rules: &'a [Rule],
    pub ids: &'a Ids<'v>,
    ghost same: { AreIdsOf ids.now (map rule_data rules.now) },
}

/// Whether one of the rules has the id.
fn has_rule(earlier: &RulesBefore, id: &[u8]) -> bool
    ensures { result ≡ has_rule (map rule_data earlier.now.rules.now) id.now }
{
    is_kept(earlier.ids, id)
}

/// The id of a rule, which none of the rules before it has.
#[tactic(auto, unfolding(crate::specs::RulesOf::rule_id_table))]
fn rule_id_of<'v>(
    alloc: Global,
    place: &[u8],
    earlier: &RulesBefore,
    value: &'v Value,
) -> Result<&'v [u8], ConfigFault>
    ensures table { IsAnswerOf result (rule_id_table place.now (map rule_data earlier.now.rules.now) (view value.now)) }
    ensures value { IfOk result (λ found. found.now ≡ text (codes "id") (view value.now)) }
{
    an_object(alloc, place, value)?;
    let id = id_of(alloc, place, value)?;
    refuse(
        alloc,
        has_rule(earlier, id),
        place,
        "id",
        Cause::DuplicateId,
    )?;
    Ok(id)
}

/// What comes before the expression of a rule, behind the rules before it.
#[tactic(auto, unfolding(crate::specs::RulesOf::head_table))]
pub(crate) fn head_of(
    alloc: Global,
    place: &[u8],
    earlier: &RulesBefore,
    value: &Value,
) -> Result<Head, ConfigFault>
    ensures table { IsAnswerOf result (head_table place.now (map rule_data earlier.now.rules.now) (view value.now)) }
    ensures id { IfOk result (λ head. head.id ≡ text (codes "id") (view value.now)) }
    ensures label { IfOk result (λ head. head.label ≡ text (codes "ref") (view value.now)) }
    ensures description { IfOk result (λ head. head.description ≡ text (codes "description") (view value.now)) }
    ensures enabled { IfOk result (λ head. head.enabled ≡ value_or as_bool true (codes "enabled") (view value.now)) }
    ensures tags { IfOk result (λ head. head.tags ≡ texts (codes "categories") (view value.now)) }
{
    let id = rule_id_of(alloc, place, earlier, value)?;
    let label = text_or(alloc, place, "ref", value, b"")?;
    let description = text_or(alloc, place, "description", value, b"")?;
    let enabled = truth_or(alloc, place, "enabled", value, true)?;
    let tags = texts_or_none(alloc, place, "categories", value)?;
    Ok(Head {
        id: Text::of(alloc, id)?,
        label: Text::of(alloc, label)?,
        description: Text::of(alloc, description)?,
        enabled,
        tags,
    })
}
