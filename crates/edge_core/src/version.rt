ghost use Rattle.std.specs.Prelude.{◌≡◌, ◌+◌, ◌^◌, ◌≤◌, ◌<◌, ◌↔◌, IsTrue, IfOk};
ghost use Rattle.std.specs.Arc.{arc_value};
ghost use Rattle.ruleset_model.specs.Valid.{IsValid};
ghost use Rattle.edge_core.specs.World.{empty_config};

use edge_base::Memory;
use ruleset_model::{Config, Picked};
use std::alloc::Global;
use std::sync::Arc;

/// The number of the last version.
const LAST_NUMBER: u64 = 1 << 40;

/// The version in force.
#[derive(Drop)]
pub struct Version {
    pub number: u64,
    pub config: Arc<Config>,
    pub ghost within: { number ≤ 2 ^ 40 },
}

impl Version {
    /// Version 0: the empty configuration.
    pub fn opening(alloc: Global) -> Result<Version, Memory>
        ensures number { IfOk result (λ version. version.number ≡ 0) }
        ensures config { IfOk result (λ version. arc_value version.config ≡ empty_config) }
    {
        let config = Arc::new(alloc, Config::empty(alloc)?)?;
        Ok(Version { number: 0, config })
    }

    /// Whether no version comes after it.
    pub fn is_last(&self) -> bool
        ensures { IsTrue result ↔ (self.now.number ≡ 2 ^ 40) }
    {
        self.number == LAST_NUMBER
    }

    /// The next version, with a configuration.
    pub fn next(&self, alloc: Global, config: Config) -> Result<Version, Memory>
        requires { self.now.number < 2 ^ 40 }
        ensures number { IfOk result (λ version. version.number ≡ self.now.number + 1) }
        ensures config { IfOk result (λ version. arc_value version.config ≡ config) }
    {
        let config = Arc::new(alloc, config)?;
        Ok(Version {
            number: self.number + 1,
            config,
        })
    }

    /// It, to be judged by.
    pub fn picked(&self) -> Result<Picked, Memory>
        ensures number { IfOk result (λ picked. picked.number ≡ self.now.number) }
        ensures config { IfOk result (λ picked. arc_value picked.config ≡ arc_value self.now.config) }
        ensures valid { IfOk result (λ picked. IsValid (arc_value picked.config).lists (arc_value picked.config).rulesets) }
    {
        let _valid = self.config.rulesets();
        Ok(Picked {
            number: self.number,
            stopped: false,
            config: Arc::try_clone(&self.config)?,
        })
    }
}
