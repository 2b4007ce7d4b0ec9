//! A request of a trace and its reply, as their line tells of them.

ghost use Rattle.std.specs.Prelude.{◌≡◌, None, Err, IfOk};
ghost use Rattle.std.specs.Arc.{arc_value};
ghost use Rattle.judge_core.specs.Values.{Listed, AreTold};
ghost use Rattle.edge_main.specs.Answered.{reply_used};
ghost use Rattle.edge_main.specs.Spent.{IsSpentFor};
ghost use Rattle.edge_main.specs.Stepping.{IsCounting, WhereCounts, FollowsAs, SpendsOnUsed, WhereAsked, IsTold};

use crate::stepping::{judge_reply, judge_request};
use edge_base::{Headers, Moment, Reply, Request, copy_headers};
use judge_core::Judged;
use rate_lane::Lanes;
use rate_plain::{Counts, StepFault};
use ruleset_model::{Picked, Verdict, VerdictKind};
use std::alloc::Global;
use trace_form::{LineParts, Recorded};

/// What was judged of a request, and the headers of its reply before and after, where there is one.
#[derive(Drop)]
pub struct Followed {
    pub verdict: Verdict,
    pub request: Request,
    pub headers: Option<(Headers, Headers)>,
}

impl Followed {
    /// Without a reply.
    pub fn alone(judged: Judged) -> Followed
        ensures verdict { result.verdict ≡ judged.verdict }
        ensures request { result.request ≡ judged.request }
        ensures headers { result.headers ≡ None }
    {
        let Judged {
            verdict,
            request,
            ..
        } = judged;
        Followed {
            verdict,
            request,
            headers: None,
        }
    }
}

/// The reply that is judged: one that was recorded, where the verdict is pass.
pub fn reply_used(kind: &VerdictKind, recorded: Option<(Reply, Moment)>) -> Option<(Reply, Moment)>
    ensures { result ≡ reply_used kind.now recorded }
{
    match kind {
        VerdictKind::Pass => recorded,
        VerdictKind::Block(_) | VerdictKind::Challenge | VerdictKind::Redirect { .. } => None,
    }
}

/// Judges the reply that is used, if there is one.
fn follow(
    alloc: Global,
    counter: &mut Lanes,
    judged: Judged,
    used: Option<(Reply, Moment)>,
    shown: &mut Counts,
) -> Result<Followed, StepFault>
    ghost listed: { Listed }
    requires told { AreTold listed (arc_value judged.config) }
    requires counting { IsCounting counter.old }
    ensures follows { IfOk result (λ followed. WhereCounts counter.old (FollowsAs listed judged used shown.old counter.new shown.new followed)) }
    ensures spent { result ≡ Err StepFault.Spent → SpendsOnUsed listed judged used counter.old }
{
    let Some((reply, at)) = used else {
        return Ok(Followed::alone(judged));
    };
    let before = copy_headers(alloc, reply.headers.as_slice())?;
    let verdict = judged.verdict.copy(alloc)?;
    let request = judged.request.copy(alloc)?;
    let Reply { headers, .. } = judge_reply(alloc, counter, judged, reply, at, shown)?;
    Ok(Followed {
        verdict,
        request,
        headers: Some((before, headers)),
    })
}

/// Judges a request in a version, and at once its reply where one was recorded.
pub fn judge_recorded(
    alloc: Global,
    counter: &mut Lanes,
    picked: Picked,
    number: u64,
    recorded: Recorded,
) -> Result<LineParts, StepFault>
    ghost listed: { Listed }
    requires told { AreTold listed (arc_value picked.config) }
    requires counting { IsCounting counter.old }
    ensures told { IfOk result (λ parts. WhereAsked counter.old picked number (IsTold listed recorded counter.new parts)) }
    ensures spent { result ≡ Err StepFault.Spent → WhereAsked counter.old picked number (λ s. IsSpentFor listed s recorded) }
{
    let Recorded { request, reply } = recorded;
    let version = picked.number;
    let came = copy_headers(alloc, request.headers.as_slice())?;
    let mut counts = Counts::new(alloc);
    let judged = judge_request(alloc, counter, picked, request, &mut counts)?;
    let used = reply_used(&judged.verdict.kind, reply);
    let Followed {
        verdict,
        request,
        headers,
    } = follow(alloc, counter, judged, used, &mut counts)?;
    Ok(LineParts {
        number,
        version,
        verdict,
        request,
        came,
        counts,
        reply: headers,
    })
}
