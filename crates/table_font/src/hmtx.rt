ghost use Rattle.std.specs.Prelude.{◌≡◌, IfOk};
ghost use Rattle.layout.specs.Faults.{first_in};
ghost use Rattle.layout.specs.Told.{verdict, table_verdict};
ghost use Rattle.layout.specs.declared.fault.TableName.TheVariants.{Hmtx as OfHmtx};
ghost use Rattle.table_font.specs.Hmtx.{hmtx_faults, advance_of};
ghost use Rattle.table_font.specs.TableFont.{table_faults};

use crate::check::check_table;
use crate::table::Hmtx;
use layout::bytes::{Field, Width};
use layout::fault::{Rule, StructureFault, TableFault, TableName};
use layout::structure::Structure;

// The first fault of an hmtx table that is said to have so many metrics.
pub fn check_hmtx(table: &[u8], metrics: u16) -> Result<(), StructureFault>
    ensures { verdict result ≡ first_in (hmtx_faults table.now metrics) }
{
    let hmtx = Structure { table, start: 0 };
    hmtx.require(1 <= metrics, Rule::Bounds, 0)?;
    // Each metric has two fields: the advance and the left bearing.
    Ok(hmtx.check_fields(0, Width::Two, 2 * u64::from(metrics))?)
}

// The advance of a glyph; those past the last metric have its advance.
pub fn advance_of(table: &[u8], metrics: u16, glyph: u16) -> u16
    ensures { result ≡ advance_of table.now metrics glyph }
{
    let metric = glyph.min(metrics.saturating_sub(1));
    u16::read(table, 4 * usize::from(metric))
}

impl<'a> Hmtx<'a> {
    // Takes a table that has no fault.
    pub fn read(table: &'a [u8], metrics: u16) -> Result<Hmtx<'a>, TableFault>
        ensures answer { table_verdict result ≡ first_in (table_faults OfHmtx table.now (hmtx_faults table.now metrics)) }
        ensures table { IfOk result (λ hmtx. (hmtx.table.now ≡ table.now) × (hmtx.metrics ≡ metrics)) }
    {
        check_table(TableName::Hmtx, table, |table| check_hmtx(table, metrics))?;
        Ok(Hmtx { table, metrics })
    }

    // The advance of a glyph.
    pub fn advance(&self, glyph: u16) -> u16
        ensures { result ≡ advance_of self.now.table.now self.now.metrics glyph }
    {
        advance_of(self.table, self.metrics, glyph)
    }
}
