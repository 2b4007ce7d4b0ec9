ghost use Rattle.std.specs.Prelude.{◌≡◌};
ghost use Rattle.http_front.specs.Places.{place_after, place_behind, is_ended};

/// Where the bytes of a head that came so far end.
#[derive(Clone, Copy, Debug)]
pub(crate) enum Place {
    /// Behind line ends alone.
    Front,
    /// In a line.
    Line,
    /// At the beginning of a line.
    Start,
    /// Behind a CR at the beginning of a line.
    Return,
    /// An empty line came behind one that isn't: the head is whole, or there will be none.
    Ended,
}

impl Place {
    /// The place one byte on.
    fn after(self, byte: u8) -> Place
        ensures { result ≡ place_after self byte }
    {
        match self {
            Place::Front => {
                if byte == b'\r' || byte == b'\n' {
                    Place::Front
                } else {
                    Place::Line
                }
            }
            Place::Line => {
                if byte == b'\n' {
                    Place::Start
                } else {
                    Place::Line
                }
            }
            Place::Start => {
                if byte == b'\n' {
                    Place::Ended
                } else if byte == b'\r' {
                    Place::Return
                } else {
                    Place::Line
                }
            }
            Place::Return => {
                if byte == b'\n' {
                    Place::Ended
                } else {
                    Place::Line
                }
            }
            Place::Ended => Place::Ended,
        }
    }

    /// Whether an empty line ended what may be a head.
    pub fn is_ended(self) -> bool
        ensures { result ≡ is_ended self }
    {
        match self {
            Place::Front | Place::Line | Place::Start | Place::Return => false,
            Place::Ended => true,
        }
    }

    /// The place behind these bytes.
    #[tactic(auto, using(crate::proofs::PlaceLemmas::one_byte_more))]
    pub fn behind(self, bytes: &[u8]) -> Place
        ensures { result ≡ place_behind self bytes.now }
    {
        let mut place = self;
        for &byte in bytes {
            place = place.after(byte);
        }
        place
    }
}
