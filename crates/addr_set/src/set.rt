ghost use Rattle.std.specs.Prelude.{◌≡◌, IfOk};
ghost use Rattle.std.specs.List.{All};

use crate::intervals::{Interval, Intervals};
use crate::spans::{Span, span_of};
use edge_base::{Addr, Item, ListedItems, Memory};
use std::alloc::Global;

/// A set of addresses.
#[derive(Debug, Drop)]
pub struct AddrSet {
    v4: Intervals,
    v6: Intervals,
}

/// The intervals of each family.
#[derive(Drop)]
struct Families {
    v4: Vec<Interval>,
    v6: Vec<Interval>,
}

impl Families {
    ghost use Rattle.edge_base.specs.declared.address.Addr.TheVariants as addr;
    ghost use Rattle.addr_set.specs.Sets.{IsAddrItem, HaveAddrs};

    fn of(alloc: Global, items: &[Item]) -> Result<Families, Memory>
        requires { All IsAddrItem items.now }
        ensures v4 { IfOk result (λ found. HaveAddrs found.v4.items addr.V4 items.now) }
        ensures v6 { IfOk result (λ found. HaveAddrs found.v6.items addr.V6 items.now) }
    {
        let mut v4 = Vec::new(alloc);
        let mut v6 = Vec::new(alloc);
        for item in items {
            match span_of(item) {
                Span::V4(interval) => v4.push(interval)?,
                Span::V6(interval) => v6.push(interval)?,
            }
        }
        Ok(Families { v4, v6 })
    }
}

impl AddrSet {
    ghost use Rattle.addr_set.specs.Sets.{IsAddrItem, has_addr, addresses_of};

    /// The addresses of these items. Host bits of a block don't count.
    pub fn build(alloc: Global, items: &ListedItems) -> Result<AddrSet, Memory>
        requires { All IsAddrItem items.now }
        ensures { IfOk result (λ set. addresses_of set ≡ has_addr items.now) }
    {
        let Families { v4, v6 } = Families::of(alloc, items.as_slice())?;
        let v4 = Intervals::of(alloc, v4)?;
        let v6 = Intervals::of(alloc, v6)?;
        Ok(AddrSet { v4, v6 })
    }

    /// Takes no memory, and logarithmic time.
    pub fn has(&self, addr: Addr) -> bool
        ensures { result ≡ addresses_of self.now addr }
    {
        match addr {
            Addr::V4(number) => self.v4.has(u128::from(number)),
            Addr::V6(number) => self.v6.has(number),
        }
    }
}
