//! The summary of a run: its requests by verdict, the steps that found no room, and the rules that ended a judging.

ghost use Rattle.std.specs.Prelude.{◌≡◌, ◌<◌, ◌≤◌, ◌+◌, ◌^◌, ◌++◌, cond, length, option_copied, IfOk, OnOk, OnErr};
ghost use Rattle.std.specs.List.{count_by};
ghost use Rattle.trace_form.specs.Line.{rule_text};
ghost use Rattle.edge_main.specs.Summary.{is_full, one_more, with_ending, rule_lines, count_line, ended_in_all, all_of};
ghost use Rattle.edge_main.specs.Summary.{is_passed, is_blocked, is_challenged, is_redirected};

use edge_base::{Memory, RuleName, Text, TextBuilder};
use rate_plain::{Answer, Counted};
use ruleset_model::VerdictKind;
use std::alloc::Global;
use std::cmp::Ordering;
use trace_form::LineParts;

/// How many judgings a rule ended.
#[derive(Debug, Drop)]
pub struct NameCount {
    pub name: Text,
    pub count: u64,
}

/// Requests by verdict.
#[derive(Clone, Copy, Debug, PartialEq, Eq)]
pub struct Kinds {
    pub pass: u64,
    pub block: u64,
    pub challenge: u64,
    pub redirect: u64,
}

/// What the requests so far came to.
#[derive(Debug, Drop)]
pub struct Summary {
    pub requests: u64,
    pub kinds: Kinds,
    /// The steps that found no room.
    pub full: u64,
    /// The rules that ended a judging, in byte order of their names.
    pub endings: Vec<NameCount>,
    ghost few_kinds: { all_of kinds ≡ requests },
    ghost few_endings: { ended_in_all endings.items ≤ requests },
}

impl Kinds {
    /// The same with one request more.
    fn with(self, kind: &VerdictKind) -> Kinds
        requires { all_of self < 2 ^ 40 }
        ensures all { all_of result ≡ all_of self + 1 }
        ensures pass { result.pass ≡ self.pass + cond (is_passed kind.now) 1 0 }
        ensures block { result.block ≡ self.block + cond (is_blocked kind.now) 1 0 }
        ensures challenge { result.challenge ≡ self.challenge + cond (is_challenged kind.now) 1 0 }
        ensures redirect { result.redirect ≡ self.redirect + cond (is_redirected kind.now) 1 0 }
    {
        match kind {
            VerdictKind::Pass => Kinds {
                pass: self.pass + 1,
                ..self
            },
            VerdictKind::Block(_) => Kinds {
                block: self.block + 1,
                ..self
            },
            VerdictKind::Challenge => Kinds {
                challenge: self.challenge + 1,
                ..self
            },
            VerdictKind::Redirect { .. } => Kinds {
                redirect: self.redirect + 1,
                ..self
            },
        }
    }
}

/// The name of a rule, as a line shows it.
fn name_of(alloc: Global, rule: &RuleName) -> Result<Text, Memory>
    ensures { IfOk result (λ text. text ≡ rule_text rule.now) }
{
    let mut name = TextBuilder::new(alloc);
    name.push(rule.set_id.bytes())?;
    name.push(b"/")?;
    name.push(rule.rule.bytes())?;
    Ok(name.into_text())
}

/// Counts a name once more.
fn count_name(counts: &mut Vec<NameCount>, name: Text) -> Result<(), Memory>
    requires { ended_in_all counts.old.items < 2 ^ 40 }
    ensures ok { OnOk result (counts.new.items ≡ one_more name counts.old.items) }
    ensures err { OnErr result (counts.new.items ≡ counts.old.items) }
{
    for place in 0..counts.len() {
        match counts[place].name.bytes().cmp(name.bytes()) {
            Ordering::Less => {}
            Ordering::Equal => {
                counts[place].count += 1;
                return Ok(());
            }
            Ordering::Greater => {
                counts.insert(place, NameCount { name, count: 1 })?;
                return Ok(());
            }
        }
    }
    counts.push(NameCount { name, count: 1 })?;
    Ok(())
}

/// Counts the rule that ended a judging, if one did.
fn count_ending(
    alloc: Global,
    counts: &mut Vec<NameCount>,
    rule: Option<&RuleName>,
) -> Result<(), Memory>
    requires { ended_in_all counts.old.items < 2 ^ 40 }
    ensures ok { OnOk result (counts.new.items ≡ with_ending (option_copied rule.entry) counts.old.items) }
    ensures few { OnOk result (ended_in_all counts.new.items ≤ ended_in_all counts.old.items + 1) }
    ensures err { OnErr result (counts.new.items ≡ counts.old.items) }
{
    match rule {
        Some(rule) => count_name(counts, name_of(alloc, rule)?),
        None => Ok(()),
    }
}

/// How many of the steps found no room.
fn full_in(steps: &[Counted]) -> u64
    ensures full { result ≡ count_by is_full steps.now }
    ensures few { result ≤ length steps.now }
{
    let mut full = 0;
    for step in steps {
        if let Answer::Full = step.answer {
            full += 1;
        }
    }
    full
}

/// Adds a line of a word and a number.
fn push_count(out: &mut TextBuilder, word: &[u8], count: u64) -> Result<(), Memory>
    ensures { OnOk result (out.new ≡ out.old ++ count_line word.now count) }
{
    out.push(word)?;
    out.push(b" ")?;
    out.push_number(count)?;
    out.push(b"\n")
}

/// Adds a line for each rule.
fn push_rules(out: &mut TextBuilder, counts: &[NameCount]) -> Result<(), Memory>
    ensures { OnOk result (out.new ≡ out.old ++ rule_lines counts.now) }
{
    for rule in counts {
        out.push(b"rule ")?;
        push_count(out, rule.name.bytes(), rule.count)?;
    }
    Ok(())
}

impl Summary {
    ghost use Rattle.std.specs.Prelude.{◌≡◌, ◌<◌, ◌≤◌, ◌+◌, ◌^◌, ◌++◌, [], length, OnOk};
    ghost use Rattle.edge_main.specs.Summing.{IsOfRequests, CountsOneMore, text_of};

    /// No request was judged yet. Takes no memory.
    pub fn new(alloc: Global) -> Summary
        ensures { IsOfRequests result [] }
    {
        Summary {
            requests: 0,
            kinds: Kinds {
                pass: 0,
                block: 0,
                challenge: 0,
                redirect: 0,
            },
            full: 0,
            endings: Vec::new(alloc),
        }
    }

    /// One more request was judged.
    pub fn add(&mut self, alloc: Global, parts: &LineParts) -> Result<(), Memory>
        requires requests { self.old.requests < 2 ^ 40 }
        requires full { self.old.full + length parts.now.counts < 2 ^ 60 }
        ensures counts { OnOk result (CountsOneMore self.old parts.now self.new) }
        ensures requests { OnOk result (self.new.requests ≡ self.old.requests + 1) }
        ensures full { OnOk result (self.new.full ≤ self.old.full + length parts.now.counts) }
    {
        count_ending(alloc, &mut self.endings, parts.verdict.rule.as_ref())?;
        self.kinds = self.kinds.with(&parts.verdict.kind);
        self.requests += 1;
        self.full += full_in(parts.counts.as_slice());
        Ok(())
    }

    /// Adds the summary to a text, with the number of steps.
    #[tactic(auto, unfolding(crate::specs::Summary::text_by))]
    pub fn push(&self, out: &mut TextBuilder, steps: u64) -> Result<(), Memory>
        ensures { OnOk result (out.new ≡ out.old ++ text_of self.now steps) }
    {
        push_count(out, b"requests", self.requests)?;
        push_count(out, b"pass", self.kinds.pass)?;
        push_count(out, b"block", self.kinds.block)?;
        push_count(out, b"challenge", self.kinds.challenge)?;
        push_count(out, b"redirect", self.kinds.redirect)?;
        push_count(out, b"full", self.full)?;
        push_count(out, b"steps", steps)?;
        push_rules(out, self.endings.as_slice())
    }
}
