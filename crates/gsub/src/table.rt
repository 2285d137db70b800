ghost use Rattle.std.specs.Prelude.{◌≡◌, None};
ghost use Rattle.layout.specs.Faults.{first_in};
ghost use Rattle.gsub.specs.Tables.{gsub_faults};

// A GSUB table that was checked: it has no fault.
#[derive(Clone, Copy)]
pub struct Gsub<'a> {
    pub table: &'a [u8],
    ghost accepted: { first_in (gsub_faults table.now) ≡ None },
}
