// What a sheet shows (document 01): in specs/ drawings, their lengths and their words; the spacing for print (request 2026-06) in code too.
#![tactic(auto)]

pub mod spacing;
