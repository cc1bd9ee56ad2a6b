// The layout of a station's cables in ranks (document 01, 'Columns and rows'): definitions and laws alone.
#![tactic(auto)]
