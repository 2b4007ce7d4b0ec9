ghost use Rattle.std.specs.Prelude.{◌≡◌, ◌≤◌, IfOk};
ghost use Rattle.rate_plain.specs.Keys.{key_bytes, lane_of_key};
ghost use Rattle.rate_plain.specs.Hash.{fnv1a64_of};

use crate::hash::{fnv1a64, fnv1a64_on};
use edge_base::{Memory, RuleName, Text};
use std::alloc::Global;
use std::hash::{Hash, Hasher};
use std::marker::Model;

/// What a limit counts by. Period and timeout are in milliseconds, at most a day.
#[derive(Debug, PartialEq, Eq, Drop)]
pub struct Key {
    pub rule: RuleName,
    pub period: u64,
    pub threshold: u64,
    pub timeout: u64,
    /// The values of the characteristics, each with its tag and its length.
    pub values: Text,
}

impl Model for Key {
    ghost use Rattle.rate_plain.specs.KeyParts.{KeyParts, HasRanges};

    ghost Value = { KeyParts };

    ghost view = { λ k. record { rule = k.rule; period = k.period; threshold = k.threshold; timeout = k.timeout; values = k.values } };

    ghost invariant = { λ k. HasRanges k.period k.threshold k.timeout };

    ghost inverse = { λ k. record { rule = k.rule; period = k.period; threshold = k.threshold; timeout = k.timeout; values = k.values } };
}

/// Of the rule its id alone, by a hash that is quick: the operator chose it. Values are a client's, and go to the keyed
/// hasher as they are.
impl Hash for Key {
    ghost use Rattle.std.specs.Prelude.{[], ◌∷◌, ◌++◌};
    ghost use Rattle.std.specs.Hash as fed;
    ghost use Rattle.std.proofs.Common.{rules};
    ghost use Rattle.std.specs.Cmp.Rules.{hashing};
    ghost use Rattle.rate_plain.specs.Hash.{fnv1a64_of};

    ghost hash_input = { λ k. fed.u64 (fnv1a64_of k.rule.rule) ++ k.values ∷ [] };

    ghost respects_eq = { Prim.search (hashing, rules) };

    fn hash<H: Hasher>(&self, state: &mut H) {
        state.write_u64(fnv1a64(self.rule.rule.bytes()));
        state.write(self.values.bytes());
    }
}

impl Key {
    pub fn copy(&self, alloc: Global) -> Result<Key, Memory>
        ensures { IfOk result (λ key. key ≡ self.now) }
    {
        Ok(Key {
            rule: self.rule.copy(alloc)?,
            period: self.period,
            threshold: self.threshold,
            timeout: self.timeout,
            values: self.values.copy(alloc)?,
        })
    }
}

/// The hash of the key's bytes, without building them.
fn key_hash(key: &Key) -> u64
    ensures { result ≡ fnv1a64_of (key_bytes key.now) }
{
    let rule_set = fnv1a64(key.rule.set_id.bytes());
    let set_end = fnv1a64_on(rule_set, &[0]);
    let rule = fnv1a64_on(set_end, key.rule.rule.bytes());
    let rule_end = fnv1a64_on(rule, &[0]);
    let period = fnv1a64_on(rule_end, &key.period.to_be_bytes());
    let threshold = fnv1a64_on(period, &key.threshold.to_be_bytes());
    let timeout = fnv1a64_on(threshold, &key.timeout.to_be_bytes());
    fnv1a64_on(timeout, key.values.bytes())
}

/// The lane of a key, of so many lanes. Takes no memory.
pub fn lane_of(key: &Key, lanes: u32) -> u32
    requires { 1 ≤ lanes }
    ensures { result ≡ lane_of_key lanes key.now }
{
    (key_hash(key) % u64::from(lanes)) as u32
}
