// The order of parts (document 01, 'The order of parts') and checks 9 and 10: definitions and laws alone.
#![tactic(auto)]
