// What the test programs share: the fields of a row, parts of slices, and how many rows are right.
#![tactic(auto)]

pub mod counts;
pub mod fields;
pub mod parts;
