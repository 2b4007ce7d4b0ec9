ghost use Rattle.std.specs.Prelude.{◌≡◌, ◌≤◌, IsErrOf, IfOk, OnOk};
ghost use Rattle.edge_outside.specs.Faults.{Rose};
ghost use Rattle.edge_outside.specs.declared.origin.AskFault.{AskFault};

use edge_base::{Memory, Reply, Request};
use std::alloc::Global;

/// Why an origin gave no reply.
#[derive(Clone, Copy, Debug, PartialEq, Eq)]
pub enum AskFault {
    Failed,
    Memory,
}

impl From<Memory> for AskFault {
    ghost use Rattle.edge_outside.specs.declared.origin.AskFault.TheVariants as fault;

    ghost from_gives = { λ _ given. given ≡ fault.Memory };

    fn from(_refused: Memory) -> AskFault {
        AskFault::Memory
    }
}

/// What replies to requests.
pub trait Origin {
    ghost use Rattle.std.specs.Prelude.{ℕ};
    ghost use Rattle.edge_base.specs.declared.message.Request.{Request};
    ghost use Rattle.edge_base.specs.declared.message.Reply.{Reply};

    // How a reply follows, where that is told, from what the origin holds before and after the call and the request.
    ghost replies: { Self → Self → Request → Reply → Type 0 };

    // How many calls failed.
    ghost faults: { Self → ℕ };

    fn ask(&mut self, alloc: Global, request: &Request) -> Result<Reply, AskFault>
        ensures ok { IfOk result (λ reply. replies self.old self.new request.now reply) }
        ensures kept { OnOk result (faults self.new ≡ faults self.old) }
        ensures failed { IsErrOf result AskFault.Failed → Rose (faults self.old) (faults self.new) }
        ensures later { faults self.old ≤ faults self.new };
}
