// The parts that font tables share: big-endian fields, faults, coverages and class definitions.
#![tactic(auto)]

pub mod array;
pub mod bytes;
pub mod class;
pub mod coverage;
pub mod fault;
pub mod ranges;
pub mod structure;
pub mod worked;
