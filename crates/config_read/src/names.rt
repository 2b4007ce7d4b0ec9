ghost use Rattle.std.specs.Prelude.{◌≡◌, ◌||◌};
ghost use Rattle.config_read.specs.Names.{kind_name, kind_of, phase_name, phase_of, action_name, action_of, plain_of, override_of, is_placed, is_nested};
ghost use Rattle.ruleset_model.specs.Phases.{is_firewall, rewrites_uri, rewrites_headers};

use crate::action::Action;
use override_plan::Plain;
use ruleset_model::{Phase, RulesetKind};

const KINDS: [RulesetKind; 3] = [RulesetKind::Managed, RulesetKind::Custom, RulesetKind::Zone];

const PHASES: [Phase; 7] = [
    Phase::DynamicRedirect,
    Phase::Transform,
    Phase::FirewallCustom,
    Phase::RateLimit,
    Phase::FirewallManaged,
    Phase::LateTransform,
    Phase::ResponseTransform,
];

const ACTIONS: [Action; 9] = [
    Action::Block,
    Action::ManagedChallenge,
    Action::JsChallenge,
    Action::Challenge,
    Action::Log,
    Action::Skip,
    Action::Execute,
    Action::Rewrite,
    Action::Redirect,
];

pub(crate) fn kind_name(kind: RulesetKind) -> &'static [u8]
    ensures { result.now ≡ kind_name kind }
{
    match kind {
        RulesetKind::Managed => b"managed",
        RulesetKind::Custom => b"custom",
        RulesetKind::Zone => b"zone",
    }
}

/// The kind of a name.
pub(crate) fn kind_of(name: &[u8]) -> Option<RulesetKind>
    ensures { result ≡ kind_of name.now }
{
    KINDS
        .iter()
        .copied()
        .find(|&known| kind_name(known) == name)
}

pub(crate) fn phase_name(phase: Phase) -> &'static [u8]
    ensures { result.now ≡ phase_name phase }
{
    match phase {
        Phase::DynamicRedirect => b"http_request_dynamic_redirect",
        Phase::Transform => b"http_request_transform",
        Phase::FirewallCustom => b"http_request_firewall_custom",
        Phase::RateLimit => b"http_ratelimit",
        Phase::FirewallManaged => b"http_request_firewall_managed",
        Phase::LateTransform => b"http_request_late_transform",
        Phase::ResponseTransform => b"http_response_headers_transform",
    }
}

/// The phase of a name.
pub(crate) fn phase_of(name: &[u8]) -> Option<Phase>
    ensures { result ≡ phase_of name.now }
{
    PHASES
        .iter()
        .copied()
        .find(|&known| phase_name(known) == name)
}

fn action_name(action: Action) -> &'static [u8]
    ensures { result.now ≡ action_name action }
{
    match action {
        Action::Block => b"block",
        Action::ManagedChallenge => b"managed_challenge",
        Action::JsChallenge => b"js_challenge",
        Action::Challenge => b"challenge",
        Action::Log => b"log",
        Action::Skip => b"skip",
        Action::Execute => b"execute",
        Action::Rewrite => b"rewrite",
        Action::Redirect => b"redirect",
    }
}

/// The action of a name.
pub(crate) fn action_of(name: &[u8]) -> Option<Action>
    ensures { result ≡ action_of name.now }
{
    ACTIONS
        .iter()
        .copied()
        .find(|&known| action_name(known) == name)
}

/// What an override may give in place of an action.
fn plain_of(action: Action) -> Option<Plain>
    ensures { result ≡ plain_of action }
{
    match action {
        Action::Block => Some(Plain::Block),
        Action::ManagedChallenge => Some(Plain::ManagedChallenge),
        Action::JsChallenge => Some(Plain::JsChallenge),
        Action::Challenge => Some(Plain::Challenge),
        Action::Log => Some(Plain::Log),
        Action::Skip | Action::Execute | Action::Rewrite | Action::Redirect => None,
    }
}

/// The action that an override gives by its name.
pub(crate) fn override_of(name: &[u8]) -> Option<Plain>
    ensures { result ≡ override_of name.now }
{
    plain_of(action_of(name)?)
}

fn is_transform(phase: Phase) -> bool
    ensures { result ≡ (rewrites_uri phase || rewrites_headers phase) }
{
    match phase {
        Phase::Transform | Phase::LateTransform | Phase::ResponseTransform => true,
        Phase::DynamicRedirect
        | Phase::FirewallCustom
        | Phase::RateLimit
        | Phase::FirewallManaged => false,
    }
}

fn is_firewall(phase: Phase) -> bool
    ensures { result ≡ is_firewall phase }
{
    phase == Phase::FirewallCustom || phase == Phase::FirewallManaged
}

/// Whether rules of the phase may have the action.
pub(crate) fn is_placed(phase: Phase, action: Action) -> bool
    ensures { result ≡ is_placed phase action }
{
    match action {
        Action::Redirect => phase == Phase::DynamicRedirect,
        Action::Rewrite => is_transform(phase),
        Action::Skip => is_firewall(phase),
        Action::Execute => true,
        Action::Block
        | Action::ManagedChallenge
        | Action::JsChallenge
        | Action::Challenge
        | Action::Log => is_firewall(phase) || phase == Phase::RateLimit,
    }
}

/// Whether the action would execute a ruleset from one that is executed itself.
pub(crate) fn is_nested(kind: RulesetKind, action: Action) -> bool
    ensures { result ≡ is_nested kind action }
{
    kind != RulesetKind::Zone && action == Action::Execute
}
