ghost use Rattle.std.specs.Prelude.{◌≡◌};
ghost use Rattle.layout.specs.Told.{number_or_none};
ghost use Rattle.shape_c.specs.Answers.{answered, faulty_answer, table_number};
ghost use Rattle.shaping.specs.Shape.{told};

use layout::fault::{Report, TableName};
use shaping::refusal::Refusal;
use shaping::shape::Laid;

// What a call answers, as C has it.
#[repr(C)]
#[derive(Clone, Copy)]
pub struct Answer {
    // 0 shaped, 1 a table's fault, 2 a refusal.
    pub kind: u32,
    // The number of the fault or the refusal, or 0.
    pub number: u32,
    // Where a fault is. The table is 1 GSUB, 2 cmap or 3 GDEF, and 0 for none; of a lookup and a subtable 65,535 stands for none.
    pub table: u32,
    pub lookup: u32,
    pub subtable: u32,
    // How many hits it took, and how many glyphs there are.
    pub hits: u32,
    pub glyphs: usize,
    // The bytes at which a fault's structure starts and its first bad field stands.
    pub structure: usize,
    pub byte: usize,
}

fn table_number(table: TableName) -> u32
    ensures { result ≡ table_number table }
{
    match table {
        TableName::Gsub => 1,
        TableName::Cmap => 2,
        TableName::Gdef => 3,
        TableName::Hmtx => 4,
    }
}

fn number_or_none(number: Option<u16>) -> u32
    ensures { result ≡ number_or_none number }
{
    match number {
        Some(number) => u32::from(number),
        None => 65_535,
    }
}

impl Answer {
    pub(crate) fn faulty(fault: Report) -> Answer
        ensures { result ≡ faulty_answer fault }
    {
        Answer {
            kind: 1,
            number: u32::from(fault.fault.number),
            table: table_number(fault.place.table),
            lookup: number_or_none(fault.place.lookup),
            subtable: number_or_none(fault.place.subtable),
            hits: 0,
            glyphs: 0,
            structure: fault.fault.start,
            byte: fault.fault.byte,
        }
    }

    // What shaping over tables without a fault came to.
    pub(crate) fn of(came: Result<Laid, Refusal>) -> Answer
        ensures { result ≡ answered (told came) }
    {
        match came {
            Ok(laid) => Answer {
                kind: 0,
                number: 0,
                table: 0,
                lookup: 65_535,
                subtable: 65_535,
                hits: laid.hits,
                glyphs: laid.glyphs,
                structure: 0,
                byte: 0,
            },
            Err(refusal) => Answer {
                kind: 2,
                number: u32::from(refusal.number()),
                table: 0,
                lookup: 65_535,
                subtable: 65_535,
                hits: 0,
                glyphs: 0,
                structure: 0,
                byte: 0,
            },
        }
    }
}
