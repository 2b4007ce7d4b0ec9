ghost use Rattle.std.specs.Prelude.{◌≡◌, ◌++◌, IfOk, OnOk, OnErr};
ghost use Rattle.std.specs.Io.{StartsWith};
ghost use Rattle.trace_form.specs.Line.{rule_text, ending_text, names_text, noted_text, kind_text, location_text, judged_text, further_text, line};
ghost use Rattle.trace_form.specs.Line.{deploy_line, bad_line};

use crate::changed::{push_reply, push_request};
use crate::refusal::BadCause;
use crate::steps::push_counts;
use edge_base::{Headers, Memory, Request, RuleName, Text, TextBuilder};
use rate_plain::Counts;
use ruleset_model::{Verdict, VerdictKind};
use std::alloc::Global;

/// What the line of a judged request tells.
#[derive(Debug, Drop)]
pub struct LineParts {
    /// The request's number, from 1.
    pub number: u64,
    /// The version by which it was judged.
    pub version: u64,
    pub verdict: Verdict,
    /// The request as rules have rewritten it.
    pub request: Request,
    /// The headers with which it came.
    pub came: Headers,
    /// The steps, in order; those of the reply are the last.
    pub counts: Counts,
    /// The headers of the reply before and after rules have rewritten them, where there is a reply.
    pub reply: Option<(Headers, Headers)>,
}

/// The kind of a verdict, with its status.
fn push_kind(out: &mut TextBuilder, kind: &VerdictKind) -> Result<(), Memory>
    ensures ok { OnOk result (out.new ≡ out.old ++ kind_text kind.now) }
    ensures err { OnErr result (StartsWith out.new out.old) }
{
    match kind {
        VerdictKind::Pass => out.push(b"pass"),
        VerdictKind::Block(response) => {
            out.push(b"block:")?;
            out.push_number(u64::from(response.status_code))
        }
        VerdictKind::Challenge => out.push(b"challenge"),
        VerdictKind::Redirect { status, target: _ } => {
            out.push(b"redirect:")?;
            out.push_number(u64::from(*status))
        }
    }
}

/// The name of a rule.
fn push_rule(out: &mut TextBuilder, name: &RuleName) -> Result<(), Memory>
    ensures ok { OnOk result (out.new ≡ out.old ++ rule_text name.now) }
    ensures err { OnErr result (StartsWith out.new out.old) }
{
    out.push(name.set_id.bytes())?;
    out.push(b"/")?;
    out.push(name.rule.bytes())
}

/// The rule that ended the judging, or a dash.
fn push_ending(out: &mut TextBuilder, rule: &Option<RuleName>) -> Result<(), Memory>
    ensures ok { OnOk result (out.new ≡ out.old ++ ending_text rule.now) }
    ensures err { OnErr result (StartsWith out.new out.old) }
{
    match rule {
        Some(name) => push_rule(out, name),
        None => out.push(b"-"),
    }
}

/// The names of more rules, each after a comma.
fn push_names(out: &mut TextBuilder, names: &[RuleName]) -> Result<(), Memory>
    ensures ok { OnOk result (out.new ≡ out.old ++ names_text names.now) }
    ensures err { OnErr result (StartsWith out.new out.old) }
{
    for name in names {
        out.push(b",")?;
        push_rule(out, name)?;
    }
    Ok(())
}

/// The rules that were noted, where there are any.
fn push_noted(out: &mut TextBuilder, names: &[RuleName]) -> Result<(), Memory>
    ensures ok { OnOk result (out.new ≡ out.old ++ noted_text names.now) }
    ensures err { OnErr result (StartsWith out.new out.old) }
{
    match names.split_first() {
        Some((first, rest)) => {
            out.push(b" log=")?;
            push_rule(out, first)?;
            push_names(out, rest)
        }
        None => Ok(()),
    }
}

/// Where a redirect leads.
fn push_location(out: &mut TextBuilder, kind: &VerdictKind) -> Result<(), Memory>
    ensures ok { OnOk result (out.new ≡ out.old ++ location_text kind.now) }
    ensures err { OnErr result (StartsWith out.new out.old) }
{
    match kind {
        VerdictKind::Redirect { status: _, target } => {
            out.push(b" to=")?;
            out.push_escaped(target.bytes())
        }
        _ => Ok(()),
    }
}

/// How a request was judged, up to its target.
#[tactic(auto, unfolding(crate::specs::Line::judged_text))]
fn push_judged(out: &mut TextBuilder, parts: &LineParts) -> Result<(), Memory>
    ensures ok { OnOk result (out.new ≡ out.old ++ judged_text parts.now) }
    ensures err { OnErr result (StartsWith out.new out.old) }
{
    out.push_number(parts.number)?;
    out.push(b" v")?;
    out.push_number(parts.version)?;
    out.push(b" ")?;
    push_kind(out, &parts.verdict.kind)?;
    out.push(b" ")?;
    push_ending(out, &parts.verdict.rule)?;
    out.push(b" ")?;
    out.push_escaped(parts.request.target.bytes())
}

/// What stands behind the steps, where it applies.
#[tactic(auto, unfolding(crate::specs::Line::further_text))]
fn push_further(out: &mut TextBuilder, parts: &LineParts) -> Result<(), Memory>
    ensures ok { OnOk result (out.new ≡ out.old ++ further_text parts.now) }
    ensures err { OnErr result (StartsWith out.new out.old) }
{
    push_noted(out, parts.verdict.noted.as_slice())?;
    push_location(out, &parts.verdict.kind)?;
    push_request(out, parts.came.as_slice(), parts.request.headers.as_slice())?;
    push_reply(out, &parts.reply)
}

/// Writes the line of a judged request.
#[tactic(auto, unfolding(crate::specs::Line::line))]
pub fn push_line(out: &mut TextBuilder, parts: &LineParts) -> Result<(), Memory>
    ensures ok { OnOk result (out.new ≡ out.old ++ line parts.now) }
    ensures err { OnErr result (StartsWith out.new out.old) }
{
    push_judged(out, parts)?;
    out.push(b" ")?;
    push_counts(out, parts.counts.as_slice())?;
    push_further(out, parts)?;
    out.push(b"\n")
}

/// Writes the line of a deployment that was put in force as this version.
pub fn push_deploy_line(out: &mut TextBuilder, version: u64) -> Result<(), Memory>
    ensures ok { OnOk result (out.new ≡ out.old ++ deploy_line version) }
    ensures err { OnErr result (StartsWith out.new out.old) }
{
    out.push(b"deploy v")?;
    out.push_number(version)?;
    out.push(b"\n")
}

/// Writes the line of an input line that is no item.
pub fn push_bad_line(out: &mut TextBuilder, number: u64, cause: BadCause) -> Result<(), Memory>
    ensures ok { OnOk result (out.new ≡ out.old ++ bad_line number cause) }
    ensures err { OnErr result (StartsWith out.new out.old) }
{
    out.push(b"bad ")?;
    out.push_number(number)?;
    out.push(b" ")?;
    out.push(cause.name())?;
    out.push(b"\n")
}

/// The line of a judged request.
pub fn line_of(alloc: Global, parts: &LineParts) -> Result<Text, Memory>
    ensures { IfOk result (λ text. text ≡ line parts.now) }
{
    let mut out = TextBuilder::new(alloc);
    push_line(&mut out, parts)?;
    Ok(out.into_text())
}
