// What is read of one cable: its line and its two parts off the list, the spots of parts and corners off the sheet.
ghost use Rattle.std.specs.Prelude.{◌≡◌, ◌+◌, ◌<◌, length};
ghost use Rattle.geometry.specs.Spots.{spot_in};
ghost use Rattle.drawing.specs.Reading.{word_spot};
ghost use Rattle.directions.specs.Columns.{InColumns};

use geometry::Spot;
use listing::fields::{one_part, other_part};
use words::{Part, Word};

// The spot in the word of a part or of a corner. It is no `From`, which would stand in `geometry`, below the definition `word_spot` of
// `drawing` that the clause names.
#[tactic(auto, unfolding(drawing::specs::Reading::word_spot))]
pub fn spot_in(word: u32) -> Spot
    ensures spot { spot_in result ≡ word_spot word }
    ensures inside { InColumns result }
{
    Spot {
        x: Word(word).first(),
        y: Word(word).second(),
    }
}

// The points of a cable's line, read in one direction: the first, the words of its corners, and the last.
#[derive(Clone, Copy, Debug)]
pub struct Line<'a> {
    pub first: Spot,
    pub corners: &'a [u32],
    pub last: Spot,
    ghost first_inside: { InColumns first },
    ghost last_inside: { InColumns last },
}

// A cable's line, and its two parts, the one that its corners are read from first.
#[derive(Clone, Copy, Debug, PartialEq, Eq)]
pub struct Strand {
    pub line: u16,
    pub one: Part,
    pub other: Part,
    ghost line_small: { line < 1024 },
}

impl Strand {
    ghost use Rattle.directions.specs.Code.{strand_in, strand_for, trace_of, InSheet, trace_off};

    // The cable at a line of the list, read in a direction.
    pub fn of(list: &[u32], line: usize, forward: bool) -> Strand
        requires line_in_bounds { 2 + line < length list.now }
        requires line_bound { line < 1024 }
        ensures { strand_in result ≡ strand_for list.now line forward }
    {
        let one = one_part(list, line);
        let other = other_part(list, line);
        let (one, other) = if forward { (one, other) } else { (other, one) };
        Strand {
            line: line as u16,
            one,
            other,
        }
    }

    // Its points: the spots of its parts off the sheet, around these corners.
    pub fn over<'a>(self, sheet: &[u32], corners: &'a [u32]) -> Line<'a>
        requires { InSheet sheet.now self }
        ensures { trace_of result ≡ trace_off sheet.now (strand_in self) corners.entry.now }
    {
        Line {
            first: spot_in(sheet[1 + self.one.0 as usize]),
            corners,
            last: spot_in(sheet[1 + self.other.0 as usize]),
        }
    }
}
