// The cables of a station in ranks.
ghost use Rattle.std.specs.Prelude.{◌≡◌, take};
ghost use Rattle.ranking.specs.Spans.{IsRanked};

use words::Rank;
use words::limits::MOST_CABLES;

// A cable in ranks: those of its lower and its upper part.
#[derive(Clone, Copy, Debug, PartialEq, Eq)]
pub struct Span {
    pub lower: Rank,
    pub upper: Rank,
}

// The cables of a station in ranks, by line, as the layout may start from them: no heap, so an array and a count.
#[derive(Clone, Copy)]
pub struct Graph {
    pub parts: usize,
    pub cables: usize,
    pub spans: [Span; MOST_CABLES],
    ghost is_ranked: { IsRanked parts cables spans },
}

impl Graph {
    // The cables by line.
    pub fn lines(&self) -> &[Span]
        ensures { result.now ≡ take self.now.cables self.now.spans }
    {
        &self.spans[..self.cables]
    }
}
