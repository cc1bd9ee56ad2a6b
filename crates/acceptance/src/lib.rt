// All sheets we write are accepted (request 2026-09): laws alone.
#![tactic(auto)]
