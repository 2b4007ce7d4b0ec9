ghost use Rattle.std.specs.Prelude.{◌≡◌, MatchOption, None};
ghost use Rattle.core.specs.Option.{ForSome};
ghost use Rattle.std.specs.Arc.{arc_value};
ghost use Rattle.version_store.specs.Notices.{IsVersion};

use crate::front::Front;
use left_right::Absorb;
use ruleset_model::Config;
use std::alloc::AllocError;
use std::sync::Arc;

/// What readers share: the list, and the version that it comes to. Where no further handle of the configuration was
/// had there is none, and who picks it is refused.
#[derive(Drop)]
pub struct Deployed {
    pub front: Front,
    pub number: u64,
    pub stopped: bool,
    pub config: Option<Arc<Config>>,
    pub ghost stands: { ForSome config (λ config. IsVersion front.notices number stopped (arc_value config)) },
}

/// A further handle, where one can be had.
fn another(config: &Option<Arc<Config>>) -> Option<Arc<Config>>
    ensures { MatchOption config.now (result ≡ None) (λ held. ForSome result (λ c. arc_value c ≡ arc_value held)) }
{
    match config {
        None => None,
        Some(config) => Arc::try_clone(config).ok(),
    }
}

impl Deployed {
    /// A copy.
    pub fn again(&self) -> Deployed
        ensures { result.front ≡ self.now.front }
    {
        Deployed {
            front: self.front.again(),
            number: self.number,
            stopped: self.stopped,
            config: another(&self.config),
        }
    }
}

/// An operation is a whole state, which takes the place of the one before.
impl Absorb<Deployed> for Deployed {
    type State = Front;

    ghost state = { λ shown. shown.front };

    ghost applied = { λ before next. next.front };

    ghost never_fails = { Unit {0} };

    fn absorb_first(&mut self, operation: &Deployed, _other: &Deployed) -> Result<(), AllocError> {
        *self = operation.again();
        Ok(())
    }

    fn absorb_second(&mut self, operation: Deployed, _other: &Deployed) -> Result<(), Deployed> {
        *self = operation;
        Ok(())
    }
}
