use rate_plain::Key;
use sqlite_items::Items;

/// A rule that was reached and that counts by the reply: the place of its ruleset, its place there, and its key.
#[derive(Drop)]
pub struct KeptCount {
    pub holder: u32,
    pub rule: u32,
    pub key: Key,
}

/// Rules that count by the reply, in the order reached.
pub type KeptCounts = Items<KeptCount>;
