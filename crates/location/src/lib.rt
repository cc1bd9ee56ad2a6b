// Pointing at the screen (request 2026-10): what lies at a mark, a chosen cable's own words, and the box around it. Definitions and laws, and
// what the calls answer with.
#![tactic(auto)]

use words::Part;

// What lies at a mark: 'blank, one part, one cable, or two cables crossing'; 'of two cables the lower line is named first'.
#[derive(Clone, Copy, Debug, PartialEq, Eq)]
pub enum Hit {
    Blank,
    Part(Part),
    Cable(u16),
    Crossing(u16, u16),
}

// 'that cable's own words of the sheet': where they start, and how many they are.
#[derive(Clone, Copy, Debug, PartialEq, Eq)]
pub struct Section {
    pub start: usize,
    pub count: usize,
}
