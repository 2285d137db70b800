ghost use Rattle.std.specs.Prelude.{◌≡◌};
ghost use Rattle.shaping.specs.Shape.{refusal_number, of_stop};

use crate::stop::Stop;

// Why a text was not shaped.
#[derive(Clone, Copy)]
pub enum Refusal {
    // The plan is too long, does not rise, names a lookup that is not there, or has an alternate value of 0.
    Plan,
    // The text, the run or the hit limit is over its limit, or the marks are shorter than the text.
    Size,
    // The hit limit is spent.
    HitLimit,
    // The run is too short.
    Room,
}

impl Refusal {
    pub fn number(self) -> u8
        ensures { result ≡ refusal_number self }
    {
        match self {
            Refusal::Plan => 5,
            Refusal::Size => 6,
            Refusal::HitLimit => 7,
            Refusal::Room => 8,
        }
    }
}

impl From<Stop> for Refusal {
    ghost from_gives = { λ stop r. r ≡ of_stop stop };

    fn from(stop: Stop) -> Refusal {
        match stop {
            Stop::HitLimit => Refusal::HitLimit,
            Stop::Room => Refusal::Room,
        }
    }
}
