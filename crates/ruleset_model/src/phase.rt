ghost use Rattle.std.specs.Prelude.{◌≡◌, IfOk};
ghost use Rattle.ruleset_model.specs.Phases.{number_of};

use edge_base::Memory;
use sqlite_items::Items;

/// A phase of the judging. They stand in the order in which they are judged, the last for a reply.
#[derive(Clone, Copy, Debug, PartialEq, Eq)]
pub enum Phase {
    DynamicRedirect,
    Transform,
    FirewallCustom,
    RateLimit,
    FirewallManaged,
    LateTransform,
    ResponseTransform,
}

/// A list of phases.
pub type Phases = Items<Phase>;

/// The phases of a request, in order.
pub const REQUEST_PHASES: [Phase; 6] = [
    Phase::DynamicRedirect,
    Phase::Transform,
    Phase::FirewallCustom,
    Phase::RateLimit,
    Phase::FirewallManaged,
    Phase::LateTransform,
];

impl Phase {
    /// The place of the phase in the order, from 0. Takes no memory.
    pub fn number(self) -> usize
        ensures { result ≡ number_of self }
    {
        match self {
            Phase::DynamicRedirect => 0,
            Phase::Transform => 1,
            Phase::FirewallCustom => 2,
            Phase::RateLimit => 3,
            Phase::FirewallManaged => 4,
            Phase::LateTransform => 5,
            Phase::ResponseTransform => 6,
        }
    }

    pub fn copy(&self) -> Result<Phase, Memory>
        ensures { IfOk result (λ phase. phase ≡ self.now) }
    {
        Ok(*self)
    }
}
