// Levels in dB as f32. Minus zero comes of a negation alone, so that nothing here negates.
ghost use Rattle.std.specs.Prelude.{◌≡◌, cond, pos};
ghost use Rattle.std.specs.Float.Ieee as Ieee;
ghost use Rattle.levels.specs.Level as definition;
ghost use Rattle.levels.specs.Level.{level_of};
ghost use Rattle.levels.specs.SignalPaths.{only};
ghost use Rattle.levels.specs.Readings as readings;
ghost use Rattle.levels.specs.Readings.{both_behind, levels_of};

use levels::{Levels, Sort};

// A count of 1/64 dB, in dB.
pub fn level_of(steps: u16) -> f32
    ensures { result ≡ level_of (pos steps) }
{
    steps as f32 / 64.0
}

// 'from 0': the levels before the first part.
pub fn zero() -> Levels
    ensures { result ≡ levels_of (only (pos 0)) }
{
    Levels {
        least: 0.0,
        greatest: 0.0,
    }
}

// 'a gain adds and a loss subtracts'.
#[tactic(auto, unfolding(levels::specs::Level::behind))]
fn behind(level: f32, sort: Sort) -> f32
    ensures { result ≡ definition.behind level sort }
{
    match sort {
        Sort::Joint => level,
        Sort::Pad(loss) => level - loss,
        Sort::Amplifier(gain) => level + gain,
    }
}

// Both levels behind a part.
#[tactic(auto, unfolding(levels::specs::Readings::both_behind))]
pub fn both_behind(levels: Levels, sort: Sort) -> Levels
    ensures { result ≡ both_behind levels sort }
{
    Levels {
        least: behind(levels.least, sort),
        greatest: behind(levels.greatest, sort),
    }
}

// `f32::min` leaves open which of two zeros it gives; this comparison does not.
fn lesser(a: f32, b: f32) -> f32
    ensures { result ≡ cond (Ieee.lt b a) b a }
{
    if b < a { b } else { a }
}

fn greater(a: f32, b: f32) -> f32
    ensures { result ≡ cond (Ieee.lt a b) b a }
{
    if a < b { b } else { a }
}

// The least and the greatest of both.
#[tactic(auto, unfolding(levels::specs::Readings::together))]
pub fn together(a: Levels, b: Levels) -> Levels
    ensures { result ≡ readings.together a b }
{
    Levels {
        least: lesser(a.least, b.least),
        greatest: greater(a.greatest, b.greatest),
    }
}
