ghost use Rattle.std.specs.Prelude.{◌≡◌, true, ◌+◌, ◌-◌, ◌*◌, ◌^◌, ◌<◌, ◌≤◌, min, length, IfOk, IfSome, IfNone, OnOk, ◌≢◌};
ghost use Rattle.layout.specs.Bytes.{u16_at, bytes_of};
ghost use Rattle.layout.specs.Faults.{first_in, extent, counted_extent, unless, format_faults};
ghost use Rattle.layout.specs.Told.{verdict, byte_verdict, told, number_of};

use crate::bytes::{Field, Width};
use crate::fault::{ByteFault, Rule, StructureFault};

// A structure of a table, by the byte at which it starts. Its faults are told with that start.
#[derive(Clone, Copy)]
pub struct Structure<'a> {
    pub table: &'a [u8],
    pub start: usize,
    // True of every slice; a proof knows it of a parameter, but not of a slice in a struct.
    ghost fits: { length table.now < 2 ^ 63 },
}

impl<'a> Structure<'a> {
    pub fn new(table: &'a [u8], start: usize) -> Structure<'a>
        ensures table { result.table.now ≡ table.now }
        ensures start { result.start ≡ start }
    {
        Structure { table, start }
    }

    // So many fields lie in the table, the first of them at a byte; else the first that does not.
    pub fn check_fields(&self, at: usize, width: Width, count: u64) -> Result<(), ByteFault>
        ensures answer { byte_verdict result ≡ first_in (extent self.now.table.now self.now.start at (bytes_of width) count) }
        ensures inside { OnOk result (at + bytes_of width * count ≤ length self.now.table.now) }
    {
        let length = self.table.len();
        let left = length.saturating_sub(at);
        if at <= length && width.fits(count, left) {
            return Ok(());
        }
        Err(ByteFault {
            start: self.start,
            at: at + width.whole(left),
        })
    }

    // The field that stands at a byte.
    pub fn field<F: Field>(&self, at: usize) -> Result<F, ByteFault>
        ensures answer { byte_verdict result ≡ first_in (extent self.now.table.now self.now.start at (bytes_of F.WIDTH) 1) }
        ensures value { IfOk result (λ v. (v ≡ F.value self.now.table.now at) × (at + bytes_of F.WIDTH ≤ length self.now.table.now)) }
    {
        self.check_fields(at, F::WIDTH, 1)?;
        Ok(F::read(self.table, at))
    }

    // The count at a byte; that many fields stand behind it.
    pub fn counted(&self, at: usize, width: Width) -> Result<u16, ByteFault>
        ensures answer { byte_verdict result ≡ first_in (counted_extent self.now.table.now self.now.start at (bytes_of width)) }
        ensures count { IfOk result (λ n. (n ≡ u16_at self.now.table.now at) × (at + 2 + bytes_of width * n ≤ length self.now.table.now)) }
    {
        let count = self.field::<u16>(at)?;
        self.check_fields(at + 2, width, u64::from(count))?;
        Ok(count)
    }

    // The fault of a field at a byte that breaks a rule.
    pub fn broken(&self, rule: Rule, at: usize) -> StructureFault
        ensures { told result ≡ record { number = number_of rule; start = self.now.start; byte = at } }
    {
        let start = self.start;
        StructureFault::Broken { rule, start, at }
    }

    // A test of the field at a byte: a rule that it breaks where the test fails.
    pub fn require(&self, test: bool, rule: Rule, at: usize) -> Result<(), StructureFault>
        ensures answer { verdict result ≡ first_in (unless test (number_of rule) self.now.start at) }
        ensures passed { OnOk result (test ≡ true) }
    {
        if test {
            Ok(())
        } else {
            Err(self.broken(rule, at))
        }
    }

    // The format that it begins with, from 1 to some number.
    pub fn format(&self, most: u16) -> Result<u16, StructureFault>
        ensures answer { verdict result ≡ first_in (format_faults self.now.table.now self.now.start most) }
        ensures format { IfOk result (λ f. (f ≡ u16_at self.now.table.now self.now.start) × (self.now.start + 2 ≤ length self.now.table.now) × (1 ≤ f) × (f ≤ most)) }
    {
        let format = self.field::<u16>(self.start)?;
        self.require(1 <= format && format <= most, Rule::Unknown, self.start)?;
        Ok(format)
    }

    // The 16 bits some bytes behind the start; 0 past the end.
    pub fn u16_in(&self, offset: usize) -> u16
        ensures { result ≡ u16_at self.now.table.now (self.now.start + offset) }
    {
        u16::read(self.table, self.start.saturating_add(offset))
    }

    // The structure that the 16-bit offset at a byte leads to, counted from the start of this one; none where the offset is 0. No table reaches to where the sum is cut off.
    pub fn behind(&self, at: usize) -> Option<Structure<'a>>
        ensures some { IfSome result (λ target. (target.table.now ≡ self.now.table.now) × (target.start ≡ min (self.now.start + u16_at self.now.table.now at) (2 ^ 64 - 1)) × (u16_at self.now.table.now at ≢ 0)) }
        ensures near { IfSome result (λ target. target.start ≤ self.now.start + 65535) }
        ensures none { IfNone result (u16_at self.now.table.now at ≡ 0) }
    {
        let link = usize::from(u16::read(self.table, at));
        if link == 0 {
            return None;
        }
        Some(Structure {
            table: self.table,
            start: self.start.saturating_add(link),
        })
    }
}
