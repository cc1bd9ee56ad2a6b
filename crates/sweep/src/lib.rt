// The lines of a sheet swept row by row (request 2026-09): what each row leaves in tables by column, definitions and laws alone.
#![tactic(auto)]
