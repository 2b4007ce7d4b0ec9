//! Worked examples.
ghost use Rattle.std.specs.Prelude.{◌≡◌, [], IfOk};
ghost use Rattle.edge_fields.specs.Schemes.{AreLists};

use crate::entry_points::entry_points;
use crate::{
    Config, Filter, Phase, Phases, REQUEST_PHASES, Response, Ruleset, RulesetKind, Rulesets,
    SkippedRules, Skips, Verdict, VerdictKind, config_may_be_shared, speaks_of_reply,
};
use edge_base::{Addr, Expr, Memory, Moment, Request, RuleName, RuleNames, Text, Texts};
use edge_fields::{ListKinds, Scheme};
use sqlite_items::{Boxed, Items};
use std::alloc::Global;
use std::process::Abort;
use std::test::Fail;
use type_check::{Place, TypeFault, Typed, check};

#[test]
fn phases_stand_in_their_order(rt: HostRuntime) {
    for (place, phase) in REQUEST_PHASES.iter().enumerate() {
        assert_eq!(rt; phase.number(), place);
    }
    assert_eq!(rt; Phase::ResponseTransform.number(), REQUEST_PHASES.len());
}

#[test]
fn an_empty_configuration_has_no_entry_points(rt: HostRuntime) -> Result<(), Fail> {
    let config = Config::empty(rt.alloc())?;
    config_may_be_shared(&config);
    assert_eq!(rt; config.rulesets().len(), 0);
    assert_eq!(rt; config.lists().parts().len(), 0);
    assert_eq!(rt; config.entry(Phase::RateLimit), None);
    Ok(())
}

/// A ruleset without rules.
type Row = (&'static [u8], RulesetKind, Phase);

fn ruleset_of(alloc: Global, row: &Row) -> Result<Ruleset, Memory> {
    let id = Text::of(alloc, row.0)?;
    let name = Text::of(alloc, b"")?;
    Ok(Ruleset {
        id,
        name,
        kind: row.1,
        phase: row.2,
        rules: Items::new(alloc),
    })
}

fn rulesets_of(alloc: Global, rows: &[Row]) -> Result<Rulesets, Memory> {
    let mut sets = Items::new(alloc);
    for row in rows {
        sets.push(ruleset_of(alloc, row)?)?;
    }
    Ok(sets)
}

/// The place of the phase's entry point among these rulesets.
fn entry_among(
    rt: &impl Abort,
    alloc: Global,
    rows: &[Row],
    phase: Phase,
) -> Result<Option<u32>, Memory> {
    let sets = rulesets_of(alloc, rows)?;
    assert!(rt; sets.len() < 1000);
    Ok(entry_points(sets.as_slice())[phase.number()])
}

const ROWS: [Row; 4] = [
    (b"mng", RulesetKind::Managed, Phase::FirewallManaged),
    (b"cs", RulesetKind::Custom, Phase::FirewallCustom),
    (b"mg", RulesetKind::Zone, Phase::FirewallManaged),
    (b"rs", RulesetKind::Zone, Phase::ResponseTransform),
];

const ENTRIES: [(Phase, Option<u32>); 4] = [
    (Phase::FirewallManaged, Some(2)),
    (Phase::FirewallCustom, None),
    (Phase::ResponseTransform, Some(3)),
    (Phase::DynamicRedirect, None),
];

#[test]
fn entry_points_are_of_zones(rt: HostRuntime) -> Result<(), Fail> {
    for (phase, place) in &ENTRIES {
        assert_eq!(rt; entry_among(&rt, rt.alloc(), &ROWS, *phase)?, *place);
    }
    Ok(())
}

/// Whether a field under a `not` speaks of a reply.
fn is_spoken(alloc: Global, name: &[u8]) -> Result<bool, Memory> {
    let field = Expr::Field(Text::of(alloc, name)?);
    let negated = Expr::Not(Boxed::new(alloc, field)?);
    Ok(speaks_of_reply(&negated))
}

#[test]
fn fields_of_a_reply_are_seen(rt: HostRuntime) -> Result<(), Fail> {
    let alloc = rt.alloc();
    assert_eq!(rt; is_spoken(alloc, b"http.response.code")?, true);
    assert_eq!(rt; is_spoken(alloc, b"http.host")?, false);
    Ok(())
}

fn no_lists(alloc: Global) -> ListKinds
    ensures none { result ≡ [] }
    ensures distinct { AreLists result }
{
    Items::new(alloc)
}

fn scheme_of_none(alloc: Global) -> Result<Scheme, Memory>
    ensures { IfOk result (λ scheme. scheme ≡ []) }
{
    Scheme::new(alloc, &no_lists(alloc))
}

/// The checked expression, under a scheme.
fn typed_in(alloc: Global, scheme: &Scheme, expr: &Expr) -> Result<Typed, Memory>
    ensures { IfOk result (λ typed. typed.lists ≡ scheme.now) }
{
    match check(alloc, scheme, expr, Place::Filter) {
        Ok(typed) => Ok(typed),
        Err(TypeFault::Memory) => Err(Memory),
        Err(TypeFault::Bad { .. }) => Err(Memory),
    }
}

/// The condition that the field `ssl` is.
fn ssl_filter(alloc: Global) -> Result<Filter, Memory>
    ensures { IfOk result (λ filter. filter.lists ≡ []) }
{
    let scheme = scheme_of_none(alloc)?;
    let expr = Expr::Field(Text::of(alloc, b"ssl")?);
    Ok(Filter::of(typed_in(alloc, &scheme, &expr)?))
}

fn request_of(alloc: Global, ssl: bool) -> Result<Request, Memory> {
    let at = Moment::of(0).ok_or(Memory)?;
    let method = Text::of(alloc, b"GET")?;
    let target = Text::of(alloc, b"/")?;
    let body = Text::of(alloc, b"")?;
    Ok(Request {
        at,
        from: Addr::V4(0),
        ssl,
        method,
        target,
        minor: 1,
        headers: Items::new(alloc),
        body,
    })
}

/// Whether the field `ssl` is true of a request, and whether it has a value.
fn ssl_of(alloc: Global, ssl: bool) -> Result<(bool, bool), Memory> {
    let config = Config::empty(alloc)?;
    let filter = ssl_filter(alloc)?;
    let request = request_of(alloc, ssl)?;
    let holds = filter.holds(alloc, &request, None, config.lists())?;
    let value = filter.run(alloc, &request, None, config.lists())?;
    Ok((holds, value.is_some()))
}

#[test]
fn filters_are_run(rt: HostRuntime) -> Result<(), Fail> {
    assert_eq!(rt; ssl_of(rt.alloc(), true)?, (true, true));
    assert_eq!(rt; ssl_of(rt.alloc(), false)?, (false, true));
    Ok(())
}

fn name_of(alloc: Global, set_id: &[u8], rule: &[u8]) -> Result<RuleName, Memory> {
    let set_id = Text::of(alloc, set_id)?;
    let rule = Text::of(alloc, rule)?;
    Ok(RuleName { set_id, rule })
}

fn response_of(alloc: Global) -> Result<Response, Memory> {
    let content = Text::of(alloc, b"blocked\n")?;
    let content_type = Text::of(alloc, b"text/plain")?;
    Ok(Response {
        status_code: 403,
        content,
        content_type,
    })
}

fn noted_of(alloc: Global) -> Result<RuleNames, Memory> {
    let mut noted = Items::new(alloc);
    noted.push(name_of(alloc, b"fw", b"r1")?)?;
    Ok(noted)
}

/// A verdict with a response, a rule and a noted rule.
fn verdict_of(alloc: Global) -> Result<Verdict, Memory> {
    let kind = VerdictKind::Block(response_of(alloc)?);
    let rule = Some(name_of(alloc, b"fw", b"r2")?);
    let noted = noted_of(alloc)?;
    Ok(Verdict { kind, rule, noted })
}

#[test]
fn verdicts_are_copied(rt: HostRuntime) -> Result<(), Fail> {
    let verdict = verdict_of(rt.alloc())?.copy(rt.alloc())?;
    assert_eq!(rt; verdict.noted.len(), 1);
    Ok(())
}

fn texts_of(alloc: Global, text: &[u8]) -> Result<Texts, Memory> {
    let mut texts = Items::new(alloc);
    texts.push(Text::of(alloc, text)?)?;
    Ok(texts)
}

fn phases_of(alloc: Global, phase: Phase) -> Result<Phases, Memory> {
    let mut phases = Items::new(alloc);
    phases.push(phase)?;
    Ok(phases)
}

fn skipped_of(alloc: Global) -> Result<SkippedRules, Memory> {
    let set_id = Text::of(alloc, b"fw")?;
    let ids = texts_of(alloc, b"r1")?;
    let mut rules = Items::new(alloc);
    rules.push((set_id, ids))?;
    Ok(rules)
}

/// Skips of a phase, a ruleset and a rule.
fn skips_of(alloc: Global) -> Result<Skips, Memory> {
    let phases = phases_of(alloc, Phase::RateLimit)?;
    let rulesets = texts_of(alloc, b"mng")?;
    let rules = skipped_of(alloc)?;
    Ok(Skips {
        current: true,
        phases,
        rulesets,
        rules,
    })
}

#[test]
fn skips_are_copied(rt: HostRuntime) -> Result<(), Fail> {
    let skips = skips_of(rt.alloc())?.copy(rt.alloc())?;
    assert_eq!(rt; skips.rules.len(), 1);
    Ok(())
}
