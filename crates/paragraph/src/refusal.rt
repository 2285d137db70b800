ghost use Rattle.std.specs.Prelude.{◌≡◌};
ghost use Rattle.paragraph.specs.Told.{of_shaping, refusal_number};

use shaping::refusal::Refusal as ShapingRefusal;

// Why a call was refused.
#[derive(Clone, Copy, Debug, PartialEq)]
pub enum Refusal {
    // The plan is too long, does not rise, names a lookup that is not there, or has an alternate value of 0.
    Plan,
    // The text, the run or the hit limit is over its limit, or memory is too short for what it is to hold.
    Size,
    // The hit limit is spent.
    HitLimit,
    // The run is too short.
    Room,
    // The line is empty, or ends past the text.
    Ends,
    // The slip is of another number, or none is owed.
    WrongSlip,
    // Slips are owed: none may be at clear, and not more than 65,535 at all.
    SlipsOwed,
}

impl Refusal {
    pub fn number(self) -> u8
        ensures { result ≡ refusal_number self }
    {
        match self {
            Refusal::Plan => 5,
            Refusal::Size => 6,
            Refusal::HitLimit => 7,
            Refusal::Room => 8,
            Refusal::Ends => 9,
            Refusal::WrongSlip => 10,
            Refusal::SlipsOwed => 11,
        }
    }
}

impl From<ShapingRefusal> for Refusal {
    ghost from_gives = { λ refusal r. r ≡ of_shaping refusal };

    fn from(refusal: ShapingRefusal) -> Refusal {
        match refusal {
            ShapingRefusal::Plan => Refusal::Plan,
            ShapingRefusal::Size => Refusal::Size,
            ShapingRefusal::HitLimit => Refusal::HitLimit,
            ShapingRefusal::Room => Refusal::Room,
        }
    }
}
