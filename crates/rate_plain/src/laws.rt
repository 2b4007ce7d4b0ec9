//! What holds of keys, of the window rule and of every legal history. Each law is a clause; the bodies are empty.

ghost use Rattle.rate_plain.specs.Laws.{KeysAreApart, KeysAreTold, LaneGivesMoment, LaneGivesAnswer, OneLaneGivesMoment, OneLaneGivesAnswer};
ghost use Rattle.rate_plain.specs.Laws.{LaneStandsAloneInMoment, LaneStandsAlone, AnyCallersGiveMoment, AnyCallersGiveAnswer};
ghost use Rattle.rate_plain.specs.Laws.{DeadStayDead, DeadKeysGiveNoAnswer};
ghost use Rattle.rate_plain.specs.Laws.{LegalStepByStep, CountedStaysWithin, LiveStaysWithin};

/// Different keys have different bytes, and the test on keys tells them apart.
pub fn keys_are_apart()
    ensures bytes { KeysAreApart }
    ensures test { KeysAreTold }
{}

/// A step is told by its own lane alone.
pub fn lane_decides()
    ensures moment { LaneGivesMoment }
    ensures answer { LaneGivesAnswer }
{}

/// Where all is of one lane, how many lanes there are changes nothing.
pub fn one_lane_is_any()
    ensures moment { OneLaneGivesMoment }
    ensures answer { OneLaneGivesAnswer }
{}

/// A lane may be kept by itself, as if it were the only one.
pub fn lane_stands_alone()
    ensures moment { LaneStandsAloneInMoment }
    ensures answer { LaneStandsAlone }
{}

/// Who took the steps changes neither moments nor answers.
pub fn callers_decide_nothing()
    ensures moment { AnyCallersGiveMoment }
    ensures answer { AnyCallersGiveAnswer }
{}

/// A key that isn't live can be dropped without changing any later answer.
pub fn dead_keys_decide_nothing()
    ensures stay { DeadStayDead }
    ensures answer { DeadKeysGiveNoAnswer }
{}

/// A legal history grows step by step, and its beginnings are legal.
pub fn history_is_legal_step_by_step()
    ensures { LegalStepByStep }
{}

/// On a legal history a key's counted steps are at most its threshold.
pub fn counted_stays_within()
    ensures { CountedStaysWithin }
{}

/// On a legal history a lane's live keys are at most its room.
pub fn live_stays_within()
    ensures { LiveStaysWithin }
{}
