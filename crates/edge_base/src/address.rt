ghost use Rattle.std.specs.Prelude.{◌≡◌, Ok, IfOk, MatchOption};
ghost use Rattle.std.specs.String.{string_bytes};
ghost use Rattle.edge_base.specs.Address.{IsAddrText, AddressIsUnique, addr_text};

use crate::refusal::Memory;
use crate::text::Text;
use std::alloc::Global;
use std::net::{Ipv4Addr, Ipv6Addr};

/// An address: its family and its number.
#[derive(Clone, Copy, Debug, PartialEq, Eq, Hash)]
pub enum Addr {
    V4(u32),
    V6(u128),
}

impl Addr {
    /// Takes no memory.
    pub fn copy(&self) -> Result<Addr, Memory>
        ensures { result ≡ Ok self.now }
    {
        Ok(*self)
    }
}

/// The address that a text stands for. Takes no memory.
pub fn parse_addr(text: &[u8]) -> Option<Addr>
    ensures { MatchOption result ((addr : Addr) → ¬ (IsAddrText text.now addr)) (λ addr. IsAddrText text.now addr) }
{
    if let Ok(addr) = Ipv4Addr::parse_ascii(text) {
        return Some(Addr::V4(addr.to_bits()));
    }
    match Ipv6Addr::parse_ascii(text) {
        Ok(addr) => Some(Addr::V6(addr.to_bits())),
        Err(_) => None,
    }
}

/// A law: a text stands for at most one address.
pub fn address_is_unique()
    ensures { AddressIsUnique }
{}

/// The digits of an address, and what stands between them.
fn spelling(alloc: Global, addr: Addr) -> Result<String, Memory>
    ensures text { IfOk result (λ text. string_bytes text ≡ addr_text addr) }
    ensures read { IfOk result (λ text. IsAddrText (string_bytes text) addr) }
{
    match addr {
        Addr::V4(number) => Ok(Ipv4Addr::from_bits(number).to_string(alloc)?),
        // `Ipv6Addr` itself would write the end of `::ffff:a00:1` as a V4 text.
        Addr::V6(number) => Ok(Ipv6Addr::from_bits(number).hex_groups().to_string(alloc)?),
    }
}

/// The one spelling of an address.
pub fn print_addr(alloc: Global, addr: Addr) -> Result<Text, Memory>
    ensures text { IfOk result (λ text. text ≡ addr_text addr) }
    ensures read { IfOk result (λ text. IsAddrText text addr) }
{
    Ok(Text::from_vec(spelling(alloc, addr)?.into_bytes()))
}
