ghost use Rattle.config_read.specs.Answered.{DocumentsAreRead};
ghost use Rattle.config_read.specs.DataLaws.{ConfigurationsAreTheirData, BuiltConfigurationsAreTheirData};
ghost use Rattle.config_read.specs.Reads.{FirstRefusalIsOne};

use expr_parser::answers_are_unique;

/// A law: patterns left out, a document has at most one first refusal, and none where nothing of it is refused.
#[tactic(auto, using(crate::proofs::DocumentSettled::first_refusal_one))]
pub fn first_refusal_is_one()
    ensures { FirstRefusalIsOne }
{
    answers_are_unique();
}

/// A law: two valid configurations with the same data are the same.
#[tactic(auto, using(crate::proofs::DataLemmas::one_configuration))]
pub fn configurations_are_their_data()
    ensures { ConfigurationsAreTheirData }
{
    answers_are_unique();
}

/// A law: two configurations with the same data are the same, where each filter is built of the text beside it.
#[tactic(auto, using(crate::proofs::BuiltOnce::one_built))]
pub fn built_configurations_are_their_data()
    ensures { BuiltConfigurationsAreTheirData }
{
    answers_are_unique();
}

/// A law: each document is taken, and stands for a configuration, or is refused.
pub fn documents_are_read()
    ensures { DocumentsAreRead }
{}
