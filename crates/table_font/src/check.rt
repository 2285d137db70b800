ghost use Rattle.std.specs.Prelude.{◌≡◌, List};
ghost use Rattle.std.specs.Fn.{FnOnceReturnsAt};
ghost use Rattle.layout.specs.declared.fault.Fault.{Fault};
ghost use Rattle.layout.specs.Faults.{first_in};
ghost use Rattle.layout.specs.Told.{verdict, table_verdict};
ghost use Rattle.table_font.specs.TableFont.{table_faults};

use layout::fault::{Place, StructureFault, TableFault, TableName, check_length};

// A table's length first, then its structure, whose fault is told at the table's own place.
pub(crate) fn check_table<F: FnOnce(&[u8]) -> Result<(), StructureFault>>(
    name: TableName,
    table: &[u8],
    check: F,
) -> Result<(), TableFault>
    requires { F.IsAlwaysCallable check }
    ensures { (faults : List Fault) → ((r : _) → FnOnceReturnsAt F.FnOnce check table.now r → verdict r ≡ first_in faults) → table_verdict result ≡ first_in (table_faults name table.now faults) }
{
    check_length(name, table)?;
    Place::of(name).hold(check(table))?;
    Ok(())
}
