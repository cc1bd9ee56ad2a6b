// The words of a layout as they are spaced, and what its cables cost.
#![tactic(auto)]

pub mod quote;
pub mod records;
pub mod sheet;
