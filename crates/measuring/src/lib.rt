// What a sheet measures: the lengths of its lines, its head and its courses as they are spaced, check 14, and how many words it has.
#![tactic(auto)]

pub mod counts;
pub mod lengths;
pub mod spacing;
