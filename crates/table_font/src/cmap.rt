ghost use Rattle.std.specs.Prelude.{◌≡◌, IfOk, None};
ghost use Rattle.layout.specs.Bytes.{u32_at};
ghost use Rattle.layout.specs.Faults.{first_in};
ghost use Rattle.layout.specs.Ranges.{holding, ranges_of};
ghost use Rattle.layout.specs.Told.{verdict, table_verdict};
ghost use Rattle.layout.specs.declared.array.Kind.TheVariants.{Groups};
ghost use Rattle.layout.specs.declared.fault.TableName.TheVariants.{Cmap as OfCmap};
ghost use Rattle.table_font.specs.Cmap.{cmap_faults, groups, glyph_of, Maps};
ghost use Rattle.table_font.specs.TableFont.{table_faults};

use crate::check::check_table;
use crate::table::Cmap;
use layout::array::{Kind, Laid, Range, RangeArray, Rising, Third};
use layout::bytes::{Field, Width};
use layout::fault::{Rule, StructureFault, TableFault, TableName};
use layout::structure::Structure;

// The array of its groups.
fn groups(table: &[u8]) -> RangeArray<'_>
    ensures structure { (result.structure.table.now ≡ table.now) × (result.structure.start ≡ 0) }
    ensures ranges { ranges_of result ≡ groups table.now }
    ensures array { (result.kind ≡ Groups) × (result.at ≡ 16) × (result.count ≡ u32_at table.now 12) }
{
    RangeArray {
        structure: Structure { table, start: 0 },
        kind: Kind::Groups,
        at: 16,
        count: u32::read(table, 12),
    }
}

// The first fault of a cmap subtable of format 12, if it has one.
pub fn check_cmap(table: &[u8]) -> Result<(), StructureFault>
    ensures { verdict result ≡ first_in (cmap_faults table.now) }
{
    let cmap = Structure { table, start: 0 };
    cmap.require(cmap.field::<u16>(0)? == 12, Rule::Unknown, 0)?;
    // A reserved field, which may say anything; then length, language and group count.
    cmap.field::<u16>(2)?;
    cmap.check_fields(4, Width::Four, 3)?;
    let length = 16 + 12 * u64::from(u32::read(table, 12));
    cmap.require(u64::from(u32::read(table, 4)) == length, Rule::Bounds, 4)?;
    groups(table).check(Third::GlyphsTo65535)
}

impl<'a> Cmap<'a> {
    // Takes a table that has no fault.
    pub fn read(table: &'a [u8]) -> Result<Cmap<'a>, TableFault>
        ensures answer { table_verdict result ≡ first_in (table_faults OfCmap table.now (cmap_faults table.now)) }
        ensures table { IfOk result (λ cmap. cmap.table.now ≡ table.now) }
    {
        check_table(TableName::Cmap, table, check_cmap)?;
        Ok(Cmap { table })
    }

    // The glyph of a character; 0 where no group holds it.
    pub fn glyph(&self, character: u32) -> u16
        ensures { result ≡ glyph_of self.now.table.now character }
    {
        match self.group_of(character) {
            // At most 65,535, as `group_of` says; a conversion that can fail would add a case.
            Some(group) => (group.value + (character - group.first)) as u16,
            None => 0,
        }
    }

    // The group that holds a character, whose glyph is at most 65,535.
    fn group_of(&self, character: u32) -> Option<Range>
        ensures group { result ≡ holding character (groups self.now.table.now) }
        ensures bound { Maps character result }
    {
        self.groups().find(character)
    }

    // Its groups, which lie in the table and rise.
    fn groups(&self) -> Rising<'a>
        ensures { ranges_of result.laid.array ≡ groups self.now.table.now }
    {
        Rising {
            laid: Laid {
                array: groups(self.table),
            },
        }
    }
}
