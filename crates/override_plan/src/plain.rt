ghost use Rattle.std.specs.Prelude.{◌≡◌, IfOk};

use edge_base::Memory;

/// What a rule does, as far as an override may change it.
#[derive(Clone, Copy, Debug, PartialEq, Eq)]
pub enum Plain {
    Block,
    Log,
    ManagedChallenge,
    JsChallenge,
    Challenge,
    /// Any other action. No override gives it, and none takes it away.
    Other,
}

/// What a rule of an executed ruleset is, once the overrides are heard.
#[derive(Clone, Copy, Debug, PartialEq, Eq)]
pub struct Effective {
    pub enabled: bool,
    pub action: Plain,
}

impl Plain {
    pub fn copy(&self) -> Result<Plain, Memory>
        ensures { IfOk result (λ plain. plain ≡ self.now) }
    {
        Ok(*self)
    }
}
