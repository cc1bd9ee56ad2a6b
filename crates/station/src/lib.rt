// The station that a list describes and checks 1 to 8 of document 01: definitions and laws alone.
#![tactic(auto)]
