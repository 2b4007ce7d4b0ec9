use ruleset_model::Config;

/// What is published: that a configuration is in force from now on, or that the run is to stop.
#[derive(Drop)]
pub enum Notice {
    Put(Config),
    Stop,
}
