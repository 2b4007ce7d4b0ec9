/// What a rule does, by its name in a document.
#[derive(Clone, Copy, Debug, PartialEq, Eq)]
pub enum Action {
    Block,
    ManagedChallenge,
    JsChallenge,
    Challenge,
    Log,
    Skip,
    Execute,
    Rewrite,
    Redirect,
}
