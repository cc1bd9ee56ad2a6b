// The rows that a line reaches, from its lowest point to its highest: a sweep passes it over in all others.
ghost use Rattle.std.specs.Prelude.{◌≡◌};
ghost use Rattle.directions.specs.Code.{trace_of};
ghost use Rattle.sweeping.specs.Rows.{reaches_row, NoneOutside};
ghost use Rattle.sweeping.specs.Code.{visits_along};

use directions::strands::Line;
use words::Word;

#[derive(Clone, Copy, Debug, PartialEq, Eq)]
pub struct Span {
    pub low: u16,
    pub high: u16,
}

impl Span {
    // The span reaches the row.
    pub fn reaches(self, y: u16) -> bool
        ensures { result ≡ reaches_row self y }
    {
        self.low <= y && y <= self.high
    }

    // The span of a line.
    pub fn over(line: Line<'_>) -> Span
        ensures { NoneOutside result (λ y. visits_along y (trace_of line.entry)) }
    {
        let mut low = line.first.y.min(line.last.y);
        let mut high = line.first.y.max(line.last.y);
        for &word in line.corners {
            let y = Word(word).second();
            low = low.min(y);
            high = high.max(y);
        }
        Span { low, high }
    }
}
