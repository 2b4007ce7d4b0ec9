//! What holds of every run, in whatever order callers and deployments come. Each law is a clause; the bodies are empty.

ghost use Rattle.edge_core.specs.Laws.{HistoriesAreLegal, RefusalsChangeNothing};
ghost use Rattle.edge_core.specs.Since.{VerdictsAreJudged, RepliesAreJudged};

/// The steps of all callers are one legal history.
pub fn histories_are_legal()
    ensures { HistoriesAreLegal }
{}

/// A refused deployment, and an event that doesn't fit, change nothing.
pub fn refusals_change_nothing()
    ensures { RefusalsChangeNothing }
{}

/// Each verdict is the judge's for the configuration that was picked, by the answers to the caller's own steps since
/// then, each once and in order.
pub fn verdicts_are_judged()
    ensures { VerdictsAreJudged }
{}

/// Each reply is the judge's in the same way, since it came.
pub fn replies_are_judged()
    ensures { RepliesAreJudged }
{}
