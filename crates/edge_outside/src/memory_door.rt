ghost use Rattle.std.specs.Prelude.{◌≡◌, ◌↔◌, ◌⊎◌, ◌+◌, ◌-◌, ◌^◌, ◌<◌, ◌≤◌, ◌∷◌, ◌++◌, ◌==◌, [], true, Some, None, length, map, Contains, IsErr, IfOk, OnOk, OnErr, vec_len, vec_capacity};
ghost use Rattle.std.specs.VecDeque.{deque_len};
ghost use Rattle.edge_outside.specs.Faults.{Rose, next_count};
ghost use Rattle.edge_outside.specs.Doors.{link_given, count_with, links_with, with_link};
ghost use Rattle.edge_outside.specs.MemoryDoors.{Door, link_shown, as_given, next_link, after_links, after_accept, after_failed_accept};

use crate::failure::Failed;
use crate::listener::Listener;
use crate::memory_link::{MemoryLink, MemoryLinks};
use crate::shown_link::ShownLink;
use crate::text_source::Numbers;
use edge_base::{Addr, Memory};
use std::alloc::Global;
use std::collections::VecDeque;
use std::marker::Model;
use std::sync::Wait;

/// A link that was not given yet, with a copy of what it shows.
#[derive(Debug, Drop)]
struct Waiting {
    link: MemoryLink,
    shown: ShownLink,
    ghost same: { shown ≡ link_shown link },
}

/// A listener over links in memory, some of whose calls fail. It is closed once every link was given. Contracts see the
/// links, those given as they were then, and the counts.
#[derive(Debug, Drop)]
pub struct MemoryDoor {
    waiting: VecDeque<Waiting>,
    // These two have room for every link.
    given: Vec<ShownLink>,
    returned: Vec<MemoryLink>,
    fail_at: Numbers,
    calls: u64,
    faults: u64,
}

impl Model for MemoryDoor {
    ghost Value = { Door };

    ghost view = { λ door. record {
      waiting = map (λ waiting. waiting.link) door.waiting.items;
      given = door.given.items;
      returned = door.returned.items;
      fail_at = door.fail_at;
      calls = door.calls;
      faults = door.faults;
    } };

    ghost invariant = { λ door. (vec_len door.given + deque_len door.waiting ≤ vec_capacity door.given)
        × (vec_len door.given + deque_len door.waiting ≤ vec_capacity door.returned)
        × (vec_len door.returned ≤ vec_len door.given) };
}

/// Each link with a copy of what it shows, in order.
fn waiting_of(alloc: Global, links: MemoryLinks) -> Result<VecDeque<Waiting>, Memory>
    ensures { IfOk result (λ waiting. map (λ each. each.link) waiting.items ≡ links) }
{
    let mut links = links;
    let mut waiting = VecDeque::new(alloc);
    while let Some(link) = links.pop() {
        let shown = ShownLink::of(alloc, &link)?;
        waiting.push_front(Waiting { link, shown })?;
    }
    Ok(waiting)
}

impl MemoryDoor {
    /// A listener that gives these links, and whose calls of `accept` of these numbers, from 0, fail.
    pub fn new(alloc: Global, links: MemoryLinks, fail_at: Numbers) -> Result<MemoryDoor, Memory>
        ensures { IfOk result (λ door. door ≡ record { waiting = links; given = []; returned = []; fail_at = fail_at; calls = 0; faults = 0 }) }
    {
        let waiting = waiting_of(alloc, links)?;
        let given = Vec::with_capacity(alloc, waiting.len())?;
        let returned = Vec::with_capacity(alloc, waiting.len())?;
        Ok(MemoryDoor {
            waiting,
            given,
            returned,
            fail_at,
            calls: 0,
            faults: 0,
        })
    }

    /// The links taken back, in order. Takes no memory.
    pub fn returned(&self) -> &[MemoryLink]
        ensures { result.now ≡ self.now.returned }
    {
        self.returned.as_slice()
    }

    /// Gives the next link, if there is one. Takes no memory.
    fn give(&mut self) -> Option<(MemoryLink, Addr, bool)>
        ensures found { result ≡ next_link self.old.waiting }
        ensures left { self.new ≡ after_links self.old.waiting self.old }
    {
        let Waiting { link, shown } = self.waiting.pop_front()?;
        self.given.push_reserved(shown);
        Some((link, Addr::V4(0), false))
    }
}

impl Listener for MemoryDoor {
    type Link = MemoryLink;

    ghost closed = { λ door. length door.waiting == 0 };

    ghost given = { λ door. length door.given };

    ghost returned = { λ door. length door.returned };

    ghost given_links = { λ door. Some (map as_given door.given) };

    ghost returned_links = { λ door. Some (map link_shown door.returned) };

    ghost faults = { λ door. door.faults };

    /// Fails exactly where its number is among those that fail, and then gives no link. Neither waits nor takes memory.
    fn accept<R: Wait>(&mut self, _: &R) -> Result<Option<(MemoryLink, Addr, bool)>, Failed>
        ensures given { length self.new.given ≡ count_with (link_given link_shown result) (length self.old.given) }
        ensures links { Some (map as_given self.new.given) ≡ links_with (link_given link_shown result) (Some (map as_given self.old.given)) }
        ensures returned { length self.new.returned ≡ length self.old.returned }
        ensures back { Some (map link_shown self.new.returned) ≡ Some (map link_shown self.old.returned) }
        ensures within { length self.new.returned ≤ length self.new.given }
        ensures none { IfOk result (λ found. found ≡ None → (length self.new.waiting == 0) ≡ true) }
        ensures shut { (length self.old.waiting == 0) ≡ true → link_given link_shown result ≡ None }
        ensures closed { (length self.old.waiting == 0) ≡ true → (length self.new.waiting == 0) ≡ true }
        ensures kept { OnOk result (self.new.faults ≡ self.old.faults) }
        ensures failed { OnErr result (Rose self.old.faults self.new.faults) }
        ensures later { self.old.faults ≤ self.new.faults }
        ensures fails { IsErr result ↔ Contains self.old.fail_at self.old.calls }
        ensures found { IfOk result (λ found. found ≡ next_link self.old.waiting) }
        ensures ok { OnOk result (self.new ≡ after_accept self.old) }
        ensures err { OnErr result (self.new ≡ after_failed_accept self.old) }
    {
        let call = self.calls;
        self.calls = self.calls.saturating_add(1);
        if self.fail_at.as_slice().contains(&call) {
            self.faults = self.faults.saturating_add(1);
            return Err(Failed);
        }
        Ok(self.give())
    }

    /// Takes no memory.
    fn done(&mut self, link: MemoryLink)
        requires { (length self.old.returned < length self.old.given) ⊎ (2 ^ 64 - 1 ≤ length self.old.given) }
        ensures returned { length self.new.returned ≡ next_count (length self.old.returned) }
        ensures back { Some (map link_shown self.new.returned) ≡ with_link (link_shown link) (Some (map link_shown self.old.returned)) }
        ensures given { length self.new.given ≡ length self.old.given }
        ensures links { Some (map as_given self.new.given) ≡ Some (map as_given self.old.given) }
        ensures within { length self.new.returned ≤ length self.new.given }
        ensures closed { (length self.new.waiting == 0) ≡ (length self.old.waiting == 0) }
        ensures kept { self.new.faults ≡ self.old.faults }
        ensures ok { self.new ≡ record self.old { returned = self.old.returned ++ link ∷ [] } }
    {
        self.returned.push_reserved(link);
    }
}
