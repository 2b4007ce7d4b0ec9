ghost use Rattle.edge_main.specs.Output.{RunsAreUnique, OutputsAreUnique, EveryInputHasAnOutput};
ghost use Rattle.edge_main.specs.Shown.{PositionsAreInOrder, HistoryIsLegal, ShownIsJudged};
ghost use Rattle.edge_main.specs.Spread.{OutputsAreSpreads};
ghost use Rattle.edge_main.specs.WaitCommands.{WaitingHasItsWord, QuietHasNoSuchWord};

use config_read::{built_configurations_are_their_data, first_refusal_is_one};
use rate_plain::history_is_legal_step_by_step;

/// An input without patterns has at most one run.
pub fn runs_are_unique()
    ensures { RunsAreUnique }
{
    first_refusal_is_one();
    built_configurations_are_their_data();
}

/// An input without patterns has at most one output.
pub fn outputs_are_unique()
    ensures { OutputsAreUnique }
{
    first_refusal_is_one();
    built_configurations_are_their_data();
}

/// Each input has an output.
pub fn every_input_has_an_output()
    ensures { EveryInputHasAnOutput }
{}

/// The steps that an output shows are those that were taken, in order, and a legal history.
pub fn history_is_legal()
    ensures positions { PositionsAreInOrder }
    ensures legal { HistoryIsLegal }
{
    history_is_legal_step_by_step();
}

/// The answers that a line shows are those by which its request was judged.
pub fn shown_is_judged()
    ensures { ShownIsJudged }
{}

/// Each output of one thread is one of several workers.
pub fn outputs_are_spreads()
    ensures { OutputsAreSpreads }
{
    history_is_legal_step_by_step();
}
/// A command that waits has a word that tells so, and a command that waits for nobody has none.
pub fn waiting_is_told_by_a_word()
    ensures waiting { WaitingHasItsWord }
    ensures quiet { QuietHasNoSuchWord }
{}
