ghost use Rattle.std.specs.Prelude.{◌≡◌, List, Some};
ghost use Rattle.layout.specs.Faults.{first_in, own_place, reports, too_long};
ghost use Rattle.layout.specs.Told.{name_text, fault_text, report_text, wrapped, placed, told, verdict, placed_verdict, table_verdict, table_told, placed_table, placing};

use std::fmt;

// A field of the structure at `start` that does not lie wholly in the table.
#[derive(Clone, Copy, Debug, PartialEq)]
pub struct ByteFault {
    pub start: usize,
    pub at: usize,
}

// The rules that a structure can break, by their numbers.
#[derive(Clone, Copy, Debug, PartialEq)]
pub enum Rule {
    // An unknown version, format or type, or an offset of 0 where there must be a structure.
    Unknown = 2,
    // Entries that do not rise, a range that ends before it begins, a wrong start index.
    Order = 3,
    // A count, a length or a glyph number beyond its bounds.
    Bounds = 4,
    // A lookup that does not exist.
    Missing = 5,
}

// What is wrong with a structure: a fault of the reader, kept whole, or a rule broken in the field at a byte.
#[derive(Clone, Copy, Debug, PartialEq)]
pub enum StructureFault {
    PastEnd(ByteFault),
    Broken { rule: Rule, start: usize, at: usize },
}

#[derive(Clone, Copy, Debug, PartialEq)]
pub enum TableName {
    Cmap,
    Gdef,
    Hmtx,
    Gsub,
}

// Where in a font a structure belongs: its table, and the lookup and the subtable that lead to it, if any do.
#[derive(Clone, Copy, Debug, PartialEq)]
pub struct Place {
    pub table: TableName,
    pub lookup: Option<u16>,
    pub subtable: Option<u16>,
}

// A structure's fault, kept whole, and the structure's place.
#[derive(Clone, Copy, Debug, PartialEq)]
pub struct PlacedFault {
    pub place: Place,
    pub fault: StructureFault,
}

// What is wrong with a table.
#[derive(Clone, Copy, Debug, PartialEq)]
pub enum TableFault {
    // More than 16,777,215 bytes.
    TooLong(TableName),
    Structure(PlacedFault),
}

// What a structure's fault tells: its number, the structure's start and the byte of the first bad field.
#[derive(Clone, Copy, Debug, PartialEq)]
pub struct Fault {
    pub number: u8,
    pub start: usize,
    pub byte: usize,
}

// All that a table's fault tells: the same, and where it is.
#[derive(Clone, Copy, Debug, PartialEq)]
pub struct Report {
    pub place: Place,
    pub fault: Fault,
}

impl From<ByteFault> for StructureFault {
    ghost from_gives = { λ b r. r ≡ wrapped b };

    fn from(fault: ByteFault) -> StructureFault {
        StructureFault::PastEnd(fault)
    }
}

impl From<(Place, StructureFault)> for PlacedFault {
    ghost from_gives = { λ held r. r ≡ placed held.0 held.1 };

    fn from((place, fault): (Place, StructureFault)) -> PlacedFault {
        PlacedFault { place, fault }
    }
}

impl From<PlacedFault> for TableFault {
    ghost from_gives = { λ p r. r ≡ placed_table p };

    fn from(fault: PlacedFault) -> TableFault {
        TableFault::Structure(fault)
    }
}

impl StructureFault {
    pub fn told(&self) -> Fault
        ensures { result ≡ told self.now }
    {
        match self {
            StructureFault::PastEnd(fault) => Fault {
                number: 1,
                start: fault.start,
                byte: fault.at,
            },
            StructureFault::Broken { rule, start, at } => Fault {
                number: *rule as u8,
                start: *start,
                byte: *at,
            },
        }
    }
}

impl Place {
    // A table's own place.
    pub fn of(table: TableName) -> Place
        ensures { result ≡ own_place table }
    {
        Place {
            table,
            lookup: None,
            subtable: None,
        }
    }

    // A structure's answer; its fault is told at this place.
    pub fn hold<T>(self, answer: Result<T, StructureFault>) -> Result<T, PlacedFault>
        ensures answer { result ≡ placing self answer }
        ensures told { (faults : List Fault) → verdict answer ≡ first_in faults → placed_verdict result ≡ first_in (reports self faults) }
    {
        answer.map_err(|fault| PlacedFault::from((self, fault)))
    }
}

// A table has at most 16,777,215 bytes.
pub fn check_length(name: TableName, table: &[u8]) -> Result<(), TableFault>
    ensures { table_verdict result ≡ first_in (too_long name table.now) }
{
    if table.len() > 16_777_215 {
        return Err(TableFault::TooLong(name));
    }
    Ok(())
}

impl TableFault {
    pub fn told(&self) -> Report
        ensures { result ≡ table_told self.now }
    {
        match self {
            TableFault::TooLong(table) => Report {
                place: Place::of(*table),
                fault: Fault {
                    number: Rule::Bounds as u8,
                    start: 0,
                    byte: 0,
                },
            },
            TableFault::Structure(placed) => Report {
                place: placed.place,
                fault: placed.fault.told(),
            },
        }
    }
}

impl fmt::Display for TableName {
    ghost output = { λ x. Some (name_text x) };

    fn fmt<W: fmt::Write>(&self, f: &mut fmt::Formatter<W>) -> fmt::Result {
        f.write_str(match self {
            TableName::Cmap => "cmap",
            TableName::Gdef => "GDEF",
            TableName::Hmtx => "hmtx",
            TableName::Gsub => "GSUB",
        })
    }
}

impl fmt::Display for Fault {
    ghost output = { λ x. Some (fault_text x) };

    fn fmt<W: fmt::Write>(&self, f: &mut fmt::Formatter<W>) -> fmt::Result {
        let Fault {
            number,
            start,
            byte,
        } = self;
        write!(f, "fault {number} structure {start} byte {byte}")
    }
}

// A structure's fault and a table's print what they tell.
impl fmt::Display for StructureFault {
    ghost output = { λ x. Some (fault_text (told x)) };

    fn fmt<W: fmt::Write>(&self, f: &mut fmt::Formatter<W>) -> fmt::Result {
        let fault = self.told();
        write!(f, "{fault}")
    }
}

impl fmt::Display for TableFault {
    ghost output = { λ x. Some (report_text (table_told x)) };

    fn fmt<W: fmt::Write>(&self, f: &mut fmt::Formatter<W>) -> fmt::Result {
        let report = self.told();
        write!(f, "{report}")
    }
}

impl fmt::Display for Report {
    ghost output = { λ x. Some (report_text x) };

    fn fmt<W: fmt::Write>(&self, f: &mut fmt::Formatter<W>) -> fmt::Result {
        let Fault {
            number,
            start,
            byte,
        } = self.fault;
        let table = self.place.table;
        // As the project tells faults, 65,535 stands for none.
        let lookup = self.place.lookup.unwrap_or(65_535);
        let subtable = self.place.subtable.unwrap_or(65_535);
        write!(
            f,
            "fault {number} table {table} lookup {lookup} subtable {subtable} structure {start} byte {byte}"
        )
    }
}
