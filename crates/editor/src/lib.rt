// A list that grows in a lent row, one cable at a time (request 2026-07): definitions and laws, and the type that they speak of, in the
// terms of optimistic concurrency control.
#![tactic(auto)]

// A cable and the version of the list that it was proposed for, which is its count of cables: the document's 'slip'. Nothing in it is
// trusted.
#[repr(C)]
#[derive(Clone, Copy, Debug, PartialEq, Eq)]
pub struct Proposal {
    pub one: u32,
    pub other: u32,
    pub version: u32,
}
