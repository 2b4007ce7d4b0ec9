ghost use Rattle.std.specs.Prelude.{◌≡◌, IfOk};

use edge_base::{Memory, RuleName, RuleNames, Text, copy_rule_names};
use std::alloc::Global;

/// What is sent where a rule blocks.
#[derive(Debug, PartialEq, Eq, Drop)]
pub struct Response {
    pub status_code: u16,
    pub content: Text,
    pub content_type: Text,
}

/// What happens to a request.
#[derive(Debug, PartialEq, Eq, Drop)]
pub enum VerdictKind {
    Pass,
    Block(Response),
    Challenge,
    Redirect { status: u16, target: Text },
}

/// What was decided on a request, and by which rules.
#[derive(Debug, Drop)]
pub struct Verdict {
    pub kind: VerdictKind,
    /// The rule that ended the judging.
    pub rule: Option<RuleName>,
    /// The rules that were noted, in order.
    pub noted: RuleNames,
}

impl Response {
    pub fn copy(&self, alloc: Global) -> Result<Response, Memory>
        ensures { IfOk result (λ response. response ≡ self.now) }
    {
        Ok(Response {
            status_code: self.status_code,
            content: self.content.copy(alloc)?,
            content_type: self.content_type.copy(alloc)?,
        })
    }
}

impl VerdictKind {
    pub fn copy(&self, alloc: Global) -> Result<VerdictKind, Memory>
        ensures { IfOk result (λ kind. kind ≡ self.now) }
    {
        match self {
            VerdictKind::Pass => Ok(VerdictKind::Pass),
            VerdictKind::Block(response) => Ok(VerdictKind::Block(response.copy(alloc)?)),
            VerdictKind::Challenge => Ok(VerdictKind::Challenge),
            VerdictKind::Redirect { status, target } => Ok(VerdictKind::Redirect {
                status: *status,
                target: target.copy(alloc)?,
            }),
        }
    }
}

/// A copy of the rule, where there is one.
fn copy_rule(alloc: Global, rule: &Option<RuleName>) -> Result<Option<RuleName>, Memory>
    ensures { IfOk result (λ copy. copy ≡ rule.now) }
{
    match rule {
        Some(name) => Ok(Some(name.copy(alloc)?)),
        None => Ok(None),
    }
}

impl Verdict {
    pub fn copy(&self, alloc: Global) -> Result<Verdict, Memory>
        ensures { IfOk result (λ verdict. verdict ≡ self.now) }
    {
        Ok(Verdict {
            kind: self.kind.copy(alloc)?,
            rule: copy_rule(alloc, &self.rule)?,
            noted: copy_rule_names(alloc, self.noted.as_slice())?,
        })
    }
}
