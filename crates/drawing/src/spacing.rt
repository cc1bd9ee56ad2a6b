// The spacing of a sheet for print (request 2026-06).
ghost use Rattle.std.specs.Prelude.{◌≡◌, ◌+◌, ◌*◌, ◌≤◌, None};
ghost use Rattle.words.specs.Limits.{most_field};
ghost use Rattle.geometry.specs.Spots.{spot_in};
ghost use Rattle.drawing.specs.Spacing as terms;
ghost use Rattle.drawing.specs.Spacing.{most_pitch, most_margin, spacing_of, on_grid, column_at, row_at, spaced_spot, bad_pitch};

use geometry::Spot;

// What a caller may give: 'a column pitch, a row pitch and a margin'.
#[derive(Clone, Copy, Debug, PartialEq, Eq)]
pub struct Spacing {
    pub column_pitch: u32,
    pub row_pitch: u32,
    pub margin: u32,
}

pub const MOST_PITCH: u32 = 64;

pub const MOST_MARGIN: u32 = 255;

impl Spacing {
    pub fn of(column_pitch: u32, row_pitch: u32, margin: u32) -> Spacing
        ensures { result ≡ spacing_of column_pitch row_pitch margin }
    {
        Spacing {
            column_pitch,
            row_pitch,
            margin,
        }
    }

    // 'pitches 1 and margin 0'.
    pub fn on_grid() -> Spacing
        ensures { result ≡ on_grid }
    {
        Spacing::of(1, 1, 0)
    }

    // 'margin + x × column pitch'. A method for each pitch, as the document names them.
    #[tactic(auto, unfolding(crate::specs::Spacing::column_at), using(crate::proofs::Spaced::column_fits))]
    pub fn column_at(self, x: u16) -> u32
        requires { terms.check13 self ≡ None }
        ensures { result ≡ column_at self x }
    {
        spread(self.margin, self.column_pitch, x)
    }

    // 'y likewise with the row pitch'.
    #[tactic(auto, unfolding(crate::specs::Spacing::row_at), using(crate::proofs::Spaced::row_fits))]
    pub fn row_at(self, y: u16) -> u32
        requires { terms.check13 self ≡ None }
        ensures { result ≡ row_at self y }
    {
        spread(self.margin, self.row_pitch, y)
    }

    // Where a spot of the grid is on the sheet.
    #[tactic(auto, unfolding(crate::specs::Spacing::spaced_spot))]
    pub fn space_spot(self, p: Spot) -> Spot
        requires spacing_value { terms.check13 self ≡ None }
        requires fits { (column_at self p.x ≤ most_field) × (row_at self p.y ≤ most_field) }
        ensures { spot_in result ≡ spaced_spot self (spot_in p) }
    {
        Spot {
            x: self.column_at(p.x) as u16,
            y: self.row_at(p.y) as u16,
        }
    }

    // 13: 'a pitch of 0 or above 64, or a margin above 255 .., place 0 for column pitch, 1 for row pitch, 2 for margin, first fault given'.
    #[tactic(auto, unfolding(crate::specs::Spacing::check13))]
    pub fn check13(self) -> Option<usize>
        ensures { result ≡ terms.check13 self }
    {
        if is_bad_pitch(self.column_pitch) {
            Some(0)
        } else if is_bad_pitch(self.row_pitch) {
            Some(1)
        } else if self.margin > MOST_MARGIN {
            Some(2)
        } else {
            None
        }
    }
}

fn spread(margin: u32, pitch: u32, x: u16) -> u32
    requires { (margin ≤ most_margin) × (pitch ≤ most_pitch) }
    ensures { result ≡ margin + x * pitch }
{
    margin + u32::from(x) * pitch
}

// 'a pitch of 0 or above 64'.
fn is_bad_pitch(pitch: u32) -> bool
    ensures { result ≡ bad_pitch pitch }
{
    pitch == 0 || pitch > MOST_PITCH
}
