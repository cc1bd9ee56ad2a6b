// A list's canonical form, the documents' 'settled form' (request 2026-13): definitions and laws.
#![tactic(auto)]
