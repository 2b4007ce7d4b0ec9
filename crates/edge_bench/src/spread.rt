//! Numbers that are spread by fixed linear congruences, the same in each run.
ghost use Rattle.std.specs.Prelude.{◌<◌};

/// The number of a place. Different places have different numbers.
pub fn number_at(place: u32) -> u128 {
    u128::from(place)
        .wrapping_mul(47_026_247_687_942_121_848_144_207_491_837_523_525)
        .wrapping_add(117_397_592_171_526_113_268_558_934_119_004_209_487)
}

/// Places, one after the other.
#[derive(Drop)]
pub struct Places {
    state: u64,
}

impl Places {
    pub fn new() -> Places {
        Places { state: 7 }
    }

    /// The next place before an end.
    pub fn next(&mut self, end: u32) -> u32
        requires { 0 < end }
        ensures { result < end }
    {
        self.state = self
            .state
            .wrapping_mul(6_364_136_223_846_793_005)
            .wrapping_add(1_442_695_040_888_963_407);
        (self.state >> 32) as u32 % end
    }
}
