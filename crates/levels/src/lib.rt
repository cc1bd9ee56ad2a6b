// Signal levels at every part of a station (request 2026-08): definitions and laws, and the types that the call works with.
#![tactic(auto)]

// 'the least and the greatest level in dB, as 32-bit floats'.
#[derive(Clone, Copy, Debug, PartialEq)]
pub struct Levels {
    pub least: f32,
    pub greatest: f32,
}

// What a part does to a signal: 'a joint without a number, 1 a pad with its loss, 2 an amplifier with its gain', in dB.
#[derive(Clone, Copy, Debug, PartialEq)]
pub enum Sort {
    Joint,
    Pad(f32),
    Amplifier(f32),
}
