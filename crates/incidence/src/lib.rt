// The cables at one rank, those that go out of it and those that come in, in their sequence.
#![tactic(auto)]

pub mod collecting;
pub mod incident;
pub mod sequence;
