use edge_base::{Memory, Text, Texts};
use edge_fields::Basic;
use sqlite_items::Items;
use std::alloc::AllocFailed;

/// A named list of addresses or of texts, as it is handed in.
#[derive(Debug, Drop)]
pub struct ListPart {
    pub name: Text,
    pub kind: Basic,
    pub items: Texts,
}

/// Lists, in their order.
pub type ListParts = Items<ListPart>;

/// Why lists can't be built: which is the first with a fault, by its place.
#[derive(Clone, Copy, Debug, PartialEq, Eq)]
pub enum ListFault {
    /// An earlier list has its name.
    DuplicateList { list: u32 },
    /// The item at this place isn't read.
    BadListItem { list: u32, at: u32 },
    /// It has more than 50,000 items.
    TooManyItems { list: u32 },
    Memory,
}

impl From<Memory> for ListFault {
    ghost use Rattle.std.specs.Prelude.{◌≡◌};
    ghost use Rattle.list_store.specs.declared.part.ListFault.TheVariants as fault;

    ghost from_gives = { λ _ e. e ≡ fault.Memory };

    fn from(_refused: Memory) -> ListFault {
        ListFault::Memory
    }
}

impl<T: Drop> From<AllocFailed<T>> for ListFault {
    ghost use Rattle.std.specs.Prelude.{◌≡◌};
    ghost use Rattle.list_store.specs.declared.part.ListFault.TheVariants as fault;

    ghost from_gives = { λ _ e. e ≡ fault.Memory };

    fn from(_refused: AllocFailed<T>) -> ListFault {
        ListFault::Memory
    }
}
