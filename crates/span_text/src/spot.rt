ghost use Rattle.std.specs.Prelude.{◌≡◌, ◌<◌, ◌≤◌, [], length, take};
ghost use Rattle.span_text.specs.Place.{place_of, place_after};

/// A place in a text: line and column from 1, columns in bytes.
#[derive(Clone, Copy, Debug, PartialEq, Eq)]
pub struct Spot {
    pub line: u32,
    pub column: u32,
}

impl Spot {
    /// The place at which a text begins.
    #[tactic(auto, unfolding(crate::specs::Place::place_of))]
    pub fn start() -> Spot
        ensures { result ≡ place_of [] }
    {
        Spot { line: 1, column: 1 }
    }

    /// The place behind a byte that stands here.
    pub fn after(self, byte: u8) -> Spot
        requires { (self.line < 4294967295) × (self.column < 4294967295) }
        ensures { result ≡ place_after self byte }
    {
        if byte == b'\n' {
            Spot {
                line: self.line + 1,
                column: 1,
            }
        } else {
            Spot {
                line: self.line,
                column: self.column + 1,
            }
        }
    }
}

/// The place of the byte at `at`, or of the end. It reads the text up to there.
#[tactic(auto, using(crate::proofs::Places::places))]
pub fn spot_at(text: &str, at: usize) -> Spot
    requires inside { at ≤ length text.now }
    requires small { length text.now < 4294967295 }
    ensures { result ≡ place_of (take at text.now) }
{
    let before = &text.as_bytes()[..at];
    let mut spot = Spot::start();
    'bytes: for &byte in before {
        spot = spot.after(byte);
    }
    spot
}
