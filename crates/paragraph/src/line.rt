use crate::slip::Slip;

// A line of a shaped paragraph: kept, by its first record and their count; or a slip, which is owed until it is paid or waived.
pub enum Line {
    Kept { first: usize, count: usize },
    Owed(Slip),
}
