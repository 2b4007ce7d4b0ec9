ghost use Rattle.std.specs.Prelude.{◌≡◌, ◌+◌, ◌*◌, ◌-◌, ◌^◌, ◌<◌, ◌≤◌, All, length, drop, set, replicate, slice_index_or, IfOk, IfSome, IfNone};
ghost use Rattle.rate_lane.specs.Order.{lesser_of, IsTree};

use edge_base::Memory;
use std::alloc::Global;
use std::marker::Model;

/// What stands beside a place that is free: no moment is as late.
pub const NEVER: u64 = u64::MAX;

/// A number beside each place, and a way to one of the least that looks at few of them: in a tree, each node has the
/// lesser number of its two children. Contracts see the list of the numbers.
#[derive(Debug, Drop)]
pub struct Order {
    /// The nodes from place 1 on, and after them the numbers. The children of a node stand at twice its place and after.
    nodes: Vec<u64>,
    places: usize,
}

impl Model for Order {
    ghost use Rattle.std.specs.Prelude.{ℕ, List, drop};
    ghost use Rattle.rate_lane.specs.Order.{IsTree};

    ghost Value = { List ℕ };

    ghost view = { λ order. drop order.places order.nodes.items };

    ghost invariant = { λ order. IsTree order.places order.nodes.items };
}

/// Gives a node the lesser number of its two children.
fn mend(nodes: &mut [u64], places: usize, node: usize)
    requires within { (1 ≤ node) × (node < places) × (places ≤ 65536) }
    requires whole { length nodes.old ≡ 2 * places }
    ensures { nodes.new ≡ set nodes.old node (lesser_of nodes.old node) }
{
    nodes[node] = nodes[2 * node].min(nodes[2 * node + 1]);
}

/// Writes a number, and mends the nodes above it.
fn set_number(nodes: &mut [u64], places: usize, place: usize, number: u64)
    requires tree { IsTree places nodes.old }
    requires within { place < places }
    ensures tree { IsTree places nodes.new }
    ensures numbers { drop places nodes.new ≡ set (drop places nodes.old) place number }
{
    nodes[places + place] = number;
    let mut node = (places + place) / 2;
    while 0 < node {
        mend(nodes, places, node);
        node /= 2;
    }
}

/// A place whose number is at most this one, if there is any.
fn find_within(nodes: &[u64], places: usize, most: u64) -> Option<usize>
    requires { IsTree places nodes.now }
    ensures some { IfSome result (λ p. (p < places) × (slice_index_or nodes.now (places + p) 0 ≤ most)) }
    ensures none { IfNone result (All (λ number. most < number) (drop places nodes.now)) }
{
    if most < nodes[1] {
        return None;
    }
    let mut node = 1;
    while node < places {
        node = if nodes[2 * node] <= most {
            2 * node
        } else {
            2 * node + 1
        };
    }
    Some(node - places)
}

impl Order {
    /// So many free places.
    pub fn new(alloc: Global, places: usize) -> Result<Order, Memory>
        requires { (1 ≤ places) × (places ≤ 65536) }
        ensures { IfOk result (λ order. order ≡ replicate places (2 ^ 64 - 1)) }
    {
        let nodes = Vec::from_elem(alloc, NEVER, 2 * places)?;
        Ok(Order { nodes, places })
    }

    pub fn places(&self) -> usize
        ensures { result ≡ length self.now }
    {
        self.places
    }

    pub fn number(&self, place: usize) -> u64
        requires { place < length self.now }
        ensures { result ≡ slice_index_or self.now place 0 }
    {
        self.nodes[self.places + place]
    }

    /// Takes no memory.
    pub fn set(&mut self, place: usize, number: u64)
        requires { place < length self.old }
        ensures { self.new ≡ set self.old place number }
    {
        set_number(self.nodes.as_mut_slice(), self.places, place, number);
    }

    /// A place whose number is at most this one, if there is any. Takes no memory.
    pub fn within(&self, most: u64) -> Option<usize>
        ensures some { IfSome result (λ p. (p < length self.now) × (slice_index_or self.now p 0 ≤ most)) }
        ensures none { IfNone result (All (λ number. most < number) self.now) }
    {
        find_within(self.nodes.as_slice(), self.places, most)
    }
}
