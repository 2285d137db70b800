ghost use Rattle.std.specs.Prelude.{◌<◌, ◌^◌};
ghost use Rattle.std.specs.Option.{SomeIff};
ghost use Rattle.std.specs.Str.Parse.{digits_value};
ghost use Rattle.parsing.specs.Number.{IsNumber, IsShort};

// The number that a word writes: decimal digits and nothing else.
pub fn number_of(word: &str) -> Option<u32>
    ensures { SomeIff result (IsNumber word.now) (digits_value 10 word.now) }
{
    if word.starts_with('+') {
        return None;
    }
    word.parse::<u32>().ok()
}

// The same for a number of 16 bits.
pub fn short_of(word: &str) -> Option<u16>
    ensures { SomeIff result (IsShort word.now) (digits_value 10 word.now) }
{
    u16::try_from(number_of(word)?).ok()
}
