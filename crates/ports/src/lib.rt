// Ports read from figures 2 and 3 of source 000 (request 2026-03).
#![tactic(auto)]

pub mod figures;
