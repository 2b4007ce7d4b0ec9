//! Who deploys configurations at a gate.

ghost use Rattle.std.specs.Prelude.{◌≡◌, ◌+◌, ◌^◌, ◌↔◌, IfOk, IfErr, OnErr};
ghost use Rattle.serde_json.specs.View.{view};
ghost use Rattle.version_store.specs.Notices.{IsPicked};
ghost use Rattle.gate_run.specs.Deployments.{IsDeployed, IsRefusedFor};
ghost use Rattle.gate_run.specs.Passes.{page_of};

use config_read::{Cause, ConfigFault, config_of};
use edge_base::{Memory, Text};
use ruleset_model::Picked;
use serde_json::Value;
use std::alloc::Global;
use std::sync::Wait;
use version_store::{Deployer, PublishFault, Told};

/// Who publishes versions.
#[derive(Drop)]
pub struct Desk {
    pub(crate) deployer: Deployer,
}

/// Why a document was not deployed.
#[derive(Debug, PartialEq, Eq, Drop)]
pub enum DeployFault {
    /// The first refusal of the document: its place and its cause.
    Refused { place: Text, cause: Cause },
    Memory,
    /// No further version can be published.
    Spent,
}

impl Desk {
    /// The version that is in force. It waits for nobody.
    pub fn current(&self) -> Result<Picked, Memory>
        ensures { IfOk result (IsPicked (page_of self.now).notices) }
    {
        self.deployer.current()
    }

    /// The published list, for passes to learn. Takes no memory and waits for nobody.
    pub fn tell(&self) -> Told
        ensures { result ≡ page_of self.now }
    {
        self.deployer.tell()
    }

    /// Publishes the configuration that a document stands for as the next version.
    pub(crate) fn deploy<R: Wait>(
        &mut self,
        rt: &R,
        alloc: Global,
        value: &Value,
    ) -> Result<u64, DeployFault>
        ensures deployed { IfOk result (IsDeployed (view value.now) (page_of self.old) (page_of self.new)) }
        ensures refused { IfErr result (IsRefusedFor (view value.now) (page_of self.old)) }
        ensures err { OnErr result (page_of self.new ≡ page_of self.old) }
    {
        let config = match config_of(alloc, value) {
            Ok(config) => config,
            Err(ConfigFault::Refused { place, cause }) => {
                return Err(DeployFault::Refused { place, cause });
            }
            Err(ConfigFault::Memory) => return Err(DeployFault::Memory),
        };
        match self.deployer.deploy(rt, alloc, config) {
            Ok(number) => Ok(number),
            Err(PublishFault::Memory) => Err(DeployFault::Memory),
            Err(PublishFault::Spent) => Err(DeployFault::Spent),
        }
    }
}
