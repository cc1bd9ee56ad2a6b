// Sheets from other people's drawing tools (request 2026-09): what a sheet is held against, definitions and laws alone.
#![tactic(auto)]
