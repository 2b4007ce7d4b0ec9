//! What holds of every judging, whatever the counter answers. Each law is a clause; the bodies are empty.

ghost use Rattle.judge_core.specs.Laws.{NoneIsOvertold, AnswersAreTaken, FrontsAsk, JudgingEnds};

/// A judging takes an answer at each of its asks, and only there.
pub fn answers_are_taken()
    ensures none { NoneIsOvertold }
    ensures taken { AnswersAreTaken }
    ensures fronts { FrontsAsk }
{}

/// Whatever the counter answers, a judging comes to its end.
pub fn judging_ends()
    ensures { JudgingEnds }
{}
