ghost use Rattle.std.specs.Prelude.{◌≡◌};
ghost use Rattle.pick.specs.Refusals.{refusal_number};

// Why records were not picked.
#[derive(Clone, Copy, Debug, PartialEq)]
pub enum Refusal {
    // The line ends where it begins, or before.
    Ends,
    // The buffer is too short.
    Room,
}

impl Refusal {
    pub fn number(self) -> u8
        ensures { result ≡ refusal_number self }
    {
        match self {
            Refusal::Ends => 9,
            Refusal::Room => 8,
        }
    }
}
