ghost use Rattle.std.specs.Prelude.{◌≡◌, None};
ghost use Rattle.layout.specs.declared.fault.TableName.TheVariants.{Cmap as OfCmap, Gdef as OfGdef, Hmtx as OfHmtx};
ghost use Rattle.layout.specs.Faults.{first_in};
ghost use Rattle.table_font.specs.Cmap.{cmap_faults};
ghost use Rattle.table_font.specs.Gdef.{gdef_faults};
ghost use Rattle.table_font.specs.Hmtx.{hmtx_faults};
ghost use Rattle.table_font.specs.TableFont.{table_faults};

// A cmap subtable of format 12 without a fault.
#[derive(Clone, Copy)]
pub struct Cmap<'a> {
    pub(crate) table: &'a [u8],
    ghost accepted: { first_in (table_faults OfCmap table.now (cmap_faults table.now)) ≡ None },
}

// A GDEF table without a fault.
#[derive(Clone, Copy)]
pub struct Gdef<'a> {
    pub(crate) table: &'a [u8],
    ghost accepted: { first_in (table_faults OfGdef table.now (gdef_faults table.now)) ≡ None },
}

// An hmtx table without a fault.
#[derive(Clone, Copy)]
pub struct Hmtx<'a> {
    pub(crate) table: &'a [u8],
    pub(crate) metrics: u16,
    ghost accepted: { first_in (table_faults OfHmtx table.now (hmtx_faults table.now metrics)) ≡ None },
}

// The font that they make.
#[derive(Clone, Copy)]
pub struct TableFont<'a> {
    pub(crate) cmap: Cmap<'a>,
    pub(crate) gdef: Gdef<'a>,
    pub(crate) hmtx: Hmtx<'a>,
}
