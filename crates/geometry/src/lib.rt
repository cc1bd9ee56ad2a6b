// Spots of the grid (document 01); in specs/ runs, lines, crossings and meetings.
#![tactic(auto)]

ghost use Rattle.std.specs.Prelude.{◌≡◌, ◌&&◌, min, max, ltb};

// 'A spot is a whole x with a whole y'.
#[derive(Clone, Copy, Debug, PartialEq, Eq)]
pub struct Spot {
    pub x: u16,
    pub y: u16,
}

// x lies strictly between a and b.
pub fn lies_between(x: u16, a: u16, b: u16) -> bool
    ensures { result ≡ (ltb (min a b) x && ltb x (max a b)) }
{
    a.min(b) < x && x < a.max(b)
}
