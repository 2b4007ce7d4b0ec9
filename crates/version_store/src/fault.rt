use edge_base::Memory;
use std::alloc::AllocFailed;
use thiserror::Error;

/// Why a configuration was not published.
#[derive(Clone, Copy, Debug, PartialEq, Eq, Error)]
pub enum PublishFault {
    #[error("memory was refused")]
    Memory,
    #[error("no further version can be published")]
    Spent,
}

impl From<Memory> for PublishFault {
    ghost use Rattle.std.specs.Prelude.{◌≡◌};
    ghost use Rattle.version_store.specs.declared.fault.PublishFault.TheVariants as fault;

    ghost from_gives = { λ _ e. e ≡ fault.Memory };

    fn from(_refused: Memory) -> PublishFault {
        PublishFault::Memory
    }
}

impl<T: Drop> From<AllocFailed<T>> for PublishFault {
    ghost use Rattle.std.specs.Prelude.{◌≡◌};
    ghost use Rattle.version_store.specs.declared.fault.PublishFault.TheVariants as fault;

    ghost from_gives = { λ _ e. e ≡ fault.Memory };

    fn from(_refused: AllocFailed<T>) -> PublishFault {
        PublishFault::Memory
    }
}
