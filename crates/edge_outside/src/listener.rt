ghost use Rattle.std.specs.Prelude.{◌≡◌, ◌-◌, ◌^◌, ◌<◌, ◌≤◌, ◌⊎◌, true, None, IfOk, OnOk, OnErr};
ghost use Rattle.edge_outside.specs.Faults.{Rose, next_count};
ghost use Rattle.edge_outside.specs.Doors.{link_given, count_with, links_with, with_link};

use crate::failure::Failed;
use crate::link::Link;
use edge_base::Addr;
use std::sync::Wait;

/// What links come from.
pub trait Listener {
    ghost use Rattle.std.specs.Prelude.{ℕ, Bool, List, Option};
    ghost use Rattle.edge_outside.specs.Shown.{LinkShown};
    ghost use Rattle.edge_outside.specs.Doors.{GivenLink};

    type Link: Link;

    // Whether it is closed.
    ghost closed: { Self → Bool };

    // How many links were given.
    ghost given: { Self → ℕ };

    // How many links were taken back.
    ghost returned: { Self → ℕ };

    // The links given, in order, as they were then, where they are told.
    ghost given_links: { Self → Option (List GivenLink) };

    // The links taken back, in order, as they were then, where they are told.
    ghost returned_links: { Self → Option (List LinkShown) };

    // How many calls of `accept` failed.
    ghost faults: { Self → ℕ };

    /// A link, the address of its peer, and whether it came over TLS; none only where the listener is closed. Waits.
    fn accept<R: Wait>(&mut self, rt: &R) -> Result<Option<(Self::Link, Addr, bool)>, Failed>
        ensures given { given self.new ≡ count_with (link_given Self.Link.shown result) (given self.old) }
        ensures links { given_links self.new ≡ links_with (link_given Self.Link.shown result) (given_links self.old) }
        ensures returned { returned self.new ≡ returned self.old }
        ensures back { returned_links self.new ≡ returned_links self.old }
        ensures within { returned self.new ≤ given self.new }
        ensures none { IfOk result (λ found. found ≡ None → closed self.new ≡ true) }
        ensures shut { closed self.old ≡ true → link_given Self.Link.shown result ≡ None }
        ensures closed { closed self.old ≡ true → closed self.new ≡ true }
        ensures kept { OnOk result (faults self.new ≡ faults self.old) }
        ensures failed { OnErr result (Rose (faults self.old) (faults self.new)) }
        ensures later { faults self.old ≤ faults self.new };

    /// Takes a link back.
    fn done(&mut self, link: Self::Link)
        requires { (returned self.old < given self.old) ⊎ (2 ^ 64 - 1 ≤ given self.old) }
        ensures returned { returned self.new ≡ next_count (returned self.old) }
        ensures back { returned_links self.new ≡ with_link (Self.Link.shown link) (returned_links self.old) }
        ensures given { given self.new ≡ given self.old }
        ensures links { given_links self.new ≡ given_links self.old }
        ensures within { returned self.new ≤ given self.new }
        ensures closed { closed self.new ≡ closed self.old }
        ensures kept { faults self.new ≡ faults self.old };
}
