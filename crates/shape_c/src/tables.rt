ghost use Rattle.std.specs.Prelude.{◌≡◌, IfOk};
ghost use Rattle.layout.specs.Faults.{first_in};
ghost use Rattle.layout.specs.Told.{table_verdict};
ghost use Rattle.shape_c.specs.Calls.{faults_in_turn};

use gsub::table::Gsub;
use layout::fault::TableFault;
use std::alloc::Global;
use table_font::table::TableFont;

// No advance is asked for.
const ONE_METRIC: [u8; 4] = [0, 0, 0, 0];

// Tables without a fault.
#[derive(Clone, Copy)]
pub(crate) struct Tables<'a> {
    pub(crate) gsub: Gsub<'a>,
    pub(crate) font: TableFont<'a>,
}

impl<'a> Tables<'a> {
    // GSUB is checked first, then cmap, then GDEF. The heap only makes the check of GSUB shorter.
    #[tactic(auto, using(crate::proofs::Turns::gsub_before, crate::proofs::Turns::font_behind))]
    pub(crate) fn checked(
        heap: Global,
        gsub: &'a [u8],
        cmap: &'a [u8],
        gdef: &'a [u8],
    ) -> Result<Tables<'a>, TableFault>
        ensures answer { table_verdict result ≡ first_in (faults_in_turn gsub.now cmap.now gdef.now) }
        ensures gsub { IfOk result (λ tables. tables.gsub.table.now ≡ gsub.now) }
        ensures cmap { IfOk result (λ tables. tables.font.cmap.table.now ≡ cmap.now) }
        ensures gdef { IfOk result (λ tables. tables.font.gdef.table.now ≡ gdef.now) }
    {
        let table = Gsub::checked(heap, gsub)?;
        let font = TableFont::checked(cmap, gdef, &ONE_METRIC, 1)?;
        Ok(Tables { gsub: table, font })
    }
}
