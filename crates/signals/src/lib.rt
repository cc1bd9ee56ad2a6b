// What parts do to a signal (request 2026-08): their sorts read from words of kind 9, checks 17 and 18, and levels in f32, whose sums and
// comparisons are exact.
#![tactic(auto)]

pub mod decibels;
pub mod sorts;
