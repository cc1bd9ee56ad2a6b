// Words read from bytes, and lines of text written as bytes.
#![tactic(auto)]

pub mod bytes;
pub mod lines;
