ghost use Rattle.std.specs.Prelude.{◌≡◌, ◌+◌, ◌^◌, ◌<◌, ◌≤◌, [], ◌∷◌, length, ◌↔◌, IfOk, IsErrOf};
ghost use Rattle.std.specs.Arc.{arc_value};
ghost use Rattle.version_store.specs.declared.fault.PublishFault.TheVariants as PublishFault;
ghost use Rattle.version_store.specs.declared.notice.Notice.TheVariants.{Put, Stop};
ghost use Rattle.version_store.specs.Books.{grown};
ghost use Rattle.version_store.specs.Notices.{IsPicked, IsVersion};
ghost use Rattle.version_store.specs.Rules.{head_of};

use crate::book::{Head, Puts, Stops};
use crate::deployed::Deployed;
use crate::fault::PublishFault;
use crate::front::Front;
use edge_base::Memory;
use ruleset_model::{Config, Picked};
use std::alloc::Global;
use std::sync::Arc;

/// The number of the last version.
const LAST_NUMBER: u64 = 1 << 40;

/// So many notices after the opening one are never reached.
const MOST_NOTICES: u64 = 1 << 61;

/// The published list, and the version that it comes to.
#[derive(Drop)]
pub struct Version {
    pub front: Front,
    pub number: u64,
    pub stopped: bool,
    pub config: Arc<Config>,
    pub ghost stands: { IsVersion front.notices number stopped (arc_value config) },
    pub ghost within: { number ≤ 2 ^ 40 },
}

impl Version {
    /// The opening version, and the word of its book.
    pub fn open(alloc: Global, first: Config) -> Result<(Version, Head), Memory>
        ensures notices { IfOk result (λ opened. opened.0.front.notices ≡ Put first ∷ []) }
        ensures head { IfOk result (λ opened. opened.1 ≡ head_of opened.0.front.book) }
    {
        let config = Arc::new(alloc, first)?;
        let (front, head) = Front::open(&config);
        let version = Version {
            front,
            number: 0,
            stopped: false,
            config,
        };
        Ok((version, head))
    }

    /// What readers see of it.
    pub fn deployed(&self) -> Deployed
        ensures { result.front ≡ self.now.front }
    {
        Deployed {
            front: self.front.again(),
            number: self.number,
            stopped: self.stopped,
            config: Arc::try_clone(&self.config).ok(),
        }
    }

    /// As a reader picks it.
    pub fn picked(&self) -> Result<Picked, Memory>
        ensures { IfOk result (IsPicked self.now.front.notices) }
    {
        Ok(Picked {
            number: self.number,
            stopped: self.stopped,
            config: Arc::try_clone(&self.config)?,
        })
    }

    /// The list as it stands and its place for one more notice, where there is one.
    fn roomy_front(&self) -> Result<Front, Memory>
        ensures front { IfOk result (λ front. front ≡ self.now.front) }
        ensures room { IfOk result (λ front. length front.notices < 2 ^ 62) }
    {
        if self.front.count() >= MOST_NOTICES {
            return Err(Memory);
        }
        Ok(self.front.again())
    }

    /// The version after a configuration was put.
    pub fn put(&self, head: &Head, alloc: Global, config: Config) -> Result<Version, PublishFault>
        requires { head.now ≡ head_of self.now.front.book }
        ensures list { IfOk result (λ next. next.front ≡ grown self.now.front (Put config)) }
        ensures number { IfOk result (λ next. next.number ≡ self.now.number + 1) }
        ensures spent { IsErrOf result PublishFault.Spent ↔ (self.now.number ≡ 2 ^ 40) }
    {
        if self.number == LAST_NUMBER {
            return Err(PublishFault::Spent);
        }
        let config = Arc::new(alloc, config)?;
        let mut front = self.roomy_front()?;
        if !front.add::<Config, Puts>(head, &config) {
            return Err(PublishFault::Memory);
        }
        Ok(Version {
            front,
            number: self.number + 1,
            stopped: self.stopped,
            config,
        })
    }

    /// The version after it was stopped.
    pub fn stop(&self, head: &Head) -> Result<Version, Memory>
        requires { head.now ≡ head_of self.now.front.book }
        ensures { IfOk result (λ next. next.front ≡ grown self.now.front Stop) }
    {
        let config = Arc::try_clone(&self.config)?;
        let mut front = self.roomy_front()?;
        if !front.add::<(), Stops>(head, &()) {
            return Err(Memory);
        }
        Ok(Version {
            front,
            number: self.number,
            stopped: true,
            config,
        })
    }
}
