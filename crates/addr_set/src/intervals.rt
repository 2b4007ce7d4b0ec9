ghost use Rattle.std.specs.Prelude.{◌≡◌, ◌≤◌, ◌<◌, length, OnOk, IfOk};
ghost use Rattle.std.specs.List.{All, AllWithin};
ghost use Rattle.std.specs.List.Sorted.{IsNonDecreasingBy};
ghost use Rattle.addr_set.specs.Intervals.{is_in_any, Adds, block_of, AreApart};

use edge_base::Memory;
use std::alloc::Global;

/// The numbers from the first to the last.
#[derive(Clone, Copy, Debug)]
pub struct Interval {
    pub first: u128,
    pub last: u128,
}

impl Interval {
    /// The numbers that differ from a number in their last bits at most.
    pub fn block(number: u128, last_bits: u32) -> Interval
        requires { last_bits ≤ 128 }
        ensures { result ≡ block_of last_bits number }
    {
        if last_bits == 128 {
            return Interval {
                first: 0,
                last: u128::MAX,
            };
        }
        let size = 1 << last_bits;
        let first = number / size * size;
        Interval {
            first,
            last: first + (size - 1),
        }
    }
}

/// Adds an interval that begins no earlier than the others. Two that overlap or touch become one.
fn add(merged: &mut Vec<Interval>, next: Interval) -> Result<(), Memory>
    requires apart { AreApart merged.old.items }
    requires begins { All (λ interval. interval.first ≤ next.first) merged.old.items }
    ensures apart { OnOk result (AreApart merged.new.items) }
    ensures begins { OnOk result (All (λ interval. interval.first ≤ next.first) merged.new.items) }
    ensures same { OnOk result (Adds merged.old.items merged.new.items next) }
{
    let Some(last) = merged.pop() else {
        merged.push(next)?;
        return Ok(());
    };
    if next.first.saturating_sub(1) <= last.last {
        merged.push(Interval {
            first: last.first,
            last: last.last.max(next.last),
        })?;
    } else {
        merged.push(last)?;
        merged.push(next)?;
    }
    Ok(())
}

/// The same numbers, as intervals that neither overlap nor touch.
fn merge(alloc: Global, sorted: &[Interval]) -> Result<Vec<Interval>, Memory>
    requires { IsNonDecreasingBy (λ interval. interval.first) sorted.now }
    ensures apart { IfOk result (λ merged. AreApart merged.items) }
    ensures same { IfOk result (λ merged. is_in_any merged.items ≡ is_in_any sorted.now) }
{
    let mut merged = Vec::new(alloc);
    for next in sorted {
        add(&mut merged, *next)?;
    }
    Ok(merged)
}

fn sort(intervals: &mut [Interval])
    ensures sorted { IsNonDecreasingBy (λ interval. interval.first) intervals.new }
    ensures same { is_in_any intervals.new ≡ is_in_any intervals.old }
{
    intervals.sort_unstable_by_key(|interval| interval.first);
}

/// How many intervals begin at a number or before it, where they are sorted.
fn begun(intervals: &[Interval], number: u128) -> usize
    requires { IsNonDecreasingBy (λ interval. interval.first) intervals.now }
    ensures within { result ≤ length intervals.now }
    ensures before { AllWithin (λ interval. interval.first ≤ number) intervals.now 0 result }
    ensures after { AllWithin (λ interval. number < interval.first) intervals.now result (length intervals.now) }
{
    intervals.partition_point(|interval| interval.first <= number)
}

/// Whether one of the intervals has a number.
fn has(intervals: &[Interval], number: u128) -> bool
    requires { AreApart intervals.now }
    ensures { result ≡ is_in_any intervals.now number }
{
    let begun = begun(intervals, number);
    begun > 0 && number <= intervals[begun - 1].last
}

/// Numbers, as intervals in their order that neither overlap nor touch.
#[derive(Debug, Drop)]
pub struct Intervals {
    list: Vec<Interval>,
    ghost apart: { AreApart list.items },
}

impl Intervals {
    /// The numbers of intervals in any order.
    pub fn of(alloc: Global, mut list: Vec<Interval>) -> Result<Intervals, Memory>
        ensures { IfOk result (λ numbers. is_in_any numbers.list.items ≡ is_in_any list.items) }
    {
        sort(&mut list);
        let list = merge(alloc, &list)?;
        Ok(Intervals { list })
    }

    /// Takes no memory.
    pub fn has(&self, number: u128) -> bool
        ensures { result ≡ is_in_any self.now.list.items number }
    {
        has(&self.list, number)
    }
}
