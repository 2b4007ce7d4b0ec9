ghost use Rattle.std.specs.Prelude.{◌≡◌, ◌≤◌, ◌^◌, ◌&&◌, ◌||◌, ◌==◌, nat_le};
ghost use Rattle.std.specs.List.{count_by};
ghost use Rattle.rate_plain.specs.Keys.{same_key, lane_of_key};
ghost use Rattle.rate_plain.specs.Window.{moment_of, is_counted, counted_of, held_until, live_count, answer_at};
ghost use Rattle.rate_plain.specs.LiveSteps.{end_above, later_of, makes_live, is_made_live, makes_live_in};

use crate::entry::{Answer, Ask, Entry};
use crate::key::{Key, lane_of};
use edge_base::Moment;

/// The moment of a step: never before an earlier one of its lane.
pub fn moment(entries: &[Entry], lanes: u32, key: &Key, asked: Moment) -> Moment
    requires { 1 ≤ lanes }
    ensures { result ≡ moment_of lanes entries.now key.now asked }
{
    let lane = lane_of(key, lanes);
    let mut at = asked;
    for entry in entries {
        if at < entry.at && lane_of(&entry.key, lanes) == lane {
            at = entry.at;
        }
    }
    at
}

/// Whether the step counts in the window that ends at `at`.
fn is_counted(entry: &Entry, at: u64) -> bool
    ensures { result ≡ is_counted at entry.now }
{
    let key = &entry.key;
    entry.adds && entry.answer == Answer::Pass && at < entry.at.get() + key.period
}

/// The end of the mitigation that an answer told, where it lies above `at`.
fn end_above(answer: Answer, at: u64) -> Option<u64>
    ensures { result ≡ end_above at answer }
{
    match answer {
        Answer::Over { until } if at < until => Some(until),
        _ => None,
    }
}

/// The later of an end so far, if there is one, and one more.
fn later(so_far: Option<u64>, end: u64) -> u64
    ensures { result ≡ later_of so_far end }
{
    match so_far {
        None => end,
        Some(so_far) => so_far.max(end),
    }
}

/// Until when the key is held, if it is.
fn held(entries: &[Entry], key: &Key, at: u64) -> Option<u64>
    ensures { result ≡ held_until key.now at entries.now }
{
    let mut held = None;
    for entry in entries {
        if let Some(end) = end_above(entry.answer, at)
            && *key == entry.key
        {
            held = Some(later(held, end));
        }
    }
    held
}

/// How many steps of the key count.
fn counted(entries: &[Entry], key: &Key, at: u64) -> u64
    ensures { result ≡ counted_of key.now at entries.now }
{
    let mut counted = 0;
    for entry in entries {
        if is_counted(entry, at) && *key == entry.key {
            counted += 1;
        }
    }
    counted
}

/// Whether the step by itself makes its key live.
fn makes_live(entry: &Entry, at: u64) -> bool
    ensures { result ≡ makes_live at entry.now }
{
    is_counted(entry, at) || end_above(entry.answer, at).is_some()
}

/// Whether one of these steps makes this key live.
fn is_made_live(entries: &[Entry], key: &Key, at: u64) -> bool
    ensures { result ≡ is_made_live key.now at entries.now }
{
    entries
        .iter()
        .any(|entry| makes_live(entry, at) && *key == entry.key)
}

/// How many keys of the lane are live: each is counted at the last step that makes it so.
fn live_keys(entries: &[Entry], lanes: u32, lane: u32, at: u64) -> usize
    requires { 1 ≤ lanes }
    ensures { result ≡ live_count lanes lane at entries.now }
{
    let mut live = 0;
    for (place, entry) in entries.iter().enumerate() {
        if makes_live(entry, at)
            && lane_of(&entry.key, lanes) == lane
            && !is_made_live(&entries[place + 1..], &entry.key, at)
        {
            live += 1;
        }
    }
    live
}

/// How many steps of the lane make their keys live. It has no more live keys than that.
fn live_steps(entries: &[Entry], lanes: u32, lane: u32, at: u64) -> usize
    requires { 1 ≤ lanes }
    ensures { result ≡ count_by (makes_live_in lanes lane at) entries.now }
{
    entries
        .iter()
        .filter(|entry| makes_live(entry, at) && lane_of(&entry.key, lanes) == lane)
        .count()
}

/// Whether as many keys of the lane are live as it has room for.
/// Its keys are told apart, in time that grows with their square, only where so many may be live.
fn is_full(entries: &[Entry], lanes: u32, cap: u32, lane: u32, at: u64) -> bool
    requires { 1 ≤ lanes }
    ensures { result ≡ nat_le cap (live_count lanes lane at entries.now) }
{
    let cap = cap as usize;
    cap <= live_steps(entries, lanes, lane, at) && cap <= live_keys(entries, lanes, lane, at)
}

/// The answer to an ask at its moment. Live keys are counted only where the asked key isn't live.
pub fn answer(entries: &[Entry], lanes: u32, cap: u32, ask: &Ask, at: Moment) -> Answer
    requires { 1 ≤ lanes }
    ensures { result ≡ answer_at lanes cap entries.now ask.now at }
{
    let key = &ask.key;
    let now = at.get();
    if let Some(until) = held(entries, key, now) {
        return Answer::Over { until };
    }
    if !ask.adds {
        return Answer::Pass;
    }
    let counted = counted(entries, key, now);
    if counted == 0 && is_full(entries, lanes, cap, lane_of(key, lanes), now) {
        return Answer::Full;
    }
    if counted == key.threshold {
        return Answer::Over {
            until: now + key.timeout,
        };
    }
    Answer::Pass
}
