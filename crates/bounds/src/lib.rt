// The box around a cable's points (request 2026-10), in the field's terms its bounding box: it is lent, and grows by one point at a time.
#![tactic(auto)]

ghost use Rattle.std.specs.Prelude.{◌≡◌};
ghost use Rattle.bounds.specs.Boxes.{alone, grown};
ghost use Rattle.geometry.specs.Spots.{spot_at};

// A box of four numbers: its least and its greatest x and y.
#[repr(C)]
#[derive(Clone, Copy, Debug, PartialEq, Eq)]
pub struct Bounds {
    pub left: u16,
    pub bottom: u16,
    pub right: u16,
    pub top: u16,
}

impl Bounds {
    // 'from one of the cable's points alone'
    pub fn around(x: u16, y: u16) -> Bounds
        ensures { result ≡ alone (spot_at x y) }
    {
        Bounds {
            left: x,
            bottom: y,
            right: x,
            top: y,
        }
    }

    // The box with one more point.
    #[tactic(auto, unfolding(crate::specs::Boxes::grown))]
    fn including(self, x: u16, y: u16) -> Bounds
        ensures { result ≡ grown self x y }
    {
        Bounds {
            left: self.left.min(x),
            bottom: self.bottom.min(y),
            right: self.right.max(x),
            top: self.top.max(y),
        }
    }

    // 'the box around a cable grows to include one more point': the one that is lent.
    pub fn include(&mut self, x: u16, y: u16)
        ensures { self.new ≡ grown self.old x y }
    {
        *self = self.including(x, y);
    }

    // A box by value, lent to `include` for one call, for callers with a loop.
    pub fn included(self, x: u16, y: u16) -> Bounds
        ensures { result ≡ grown self x y }
    {
        let mut lent = self;
        lent.include(x, y);
        lent
    }
}
