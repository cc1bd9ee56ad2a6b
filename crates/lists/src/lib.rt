// Lists of numbers: what the definitions of every other crate are written with. Definitions and laws alone.
#![tactic(auto)]
