ghost use Rattle.std.specs.Prelude.{◌≡◌, [], length, take, drop, nat_lt, if◌then◌else◌};
ghost use Rattle.model.specs.Laws.{run_width};
ghost use Rattle.font.specs.Told.{gave, refused, told};

use font::refusal::Refusal as FontRefusal;
use font::source::{MeasuredSource, run_width};
use model::Glyph;

// The width of so many records of a run from the first on: of a paragraph, or of a line.
pub fn width<S: MeasuredSource>(
    source: &S,
    run: &[Glyph],
    first: usize,
    count: usize,
) -> Result<u32, FontRefusal>
    ensures { told result ≡ (if nat_lt 65535 (length (take count (drop first run.now))) then refused 6 [] else gave (run_width (S.MeasuredSource.advances source.now) (take count (drop first run.now)))) }
{
    let behind = &run[first.min(run.len())..];
    let records = &behind[..count.min(behind.len())];
    run_width(source, records)
}
