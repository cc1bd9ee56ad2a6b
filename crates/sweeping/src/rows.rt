// The rows of a sheet, one after the other: in each the parts, then the lines by number.
ghost use Rattle.std.specs.Prelude.{◌≡◌, map, ◌+◌, ◌<◌, ◌≤◌, length};
ghost use Rattle.drawing.specs.Drawing.{route_at};
ghost use Rattle.drawing.specs.Reading.{word_spot};
ghost use Rattle.sweep.specs.Sweep.{route_visits, strand_of, rows_alone, rows_pair};
ghost use Rattle.directions.specs.Code.{CornersOf};
ghost use Rattle.sweeping.specs.Able.{Sweepable, Spans};
ghost use Rattle.sweeping.specs.Code.{Marked, Visited, LinesSwept};

use crate::lines::sweep_line;
use crate::spans::Span;
use boards::Boards;
use directions::corners_at;
use directions::strands::{Line, Strand, spot_in};
use listing::fields::part_count;
use words::limits::MOST_CABLES;
use words::{Part, Word};

// The parts that stand in the row, of all that these words have.
fn mark_parts(boards: &mut Boards, parts: &[u32])
    requires { length parts.now ≤ 512 }
    ensures { Marked boards.old (map word_spot parts.now) boards.new }
{
    for (p, &word) in parts.iter().enumerate() {
        boards.mark_part(Part(p as u16), spot_in(word));
    }
}

// The rows that each of the lines reaches.
#[tactic(auto, using(order::proofs::Passed::words_10))]
pub fn find_spans(
    list: &[u32],
    sheet: &[u32],
    forward: &[bool],
    lines: usize,
) -> [Span; MOST_CABLES]
    requires { Sweepable list.now sheet.now forward.now lines }
    ensures { Spans list.now sheet.now forward.now lines result }
{
    let mut spans = [Span { low: 0, high: 0 }; MOST_CABLES];
    let mut at = 1 + part_count(list);
    for i in 0..lines {
        let corners = corners_at(sheet, at);
        spans[i] = Span::over(Line::of(list, sheet, i, forward[i], corners));
        at += 1 + corners.len();
    }
    spans
}

// What is swept: the first lines of the list on a sheet, each in its direction, and the rows that each reaches.
#[derive(Clone, Copy)]
pub struct Sweep<'a> {
    pub list: &'a [u32],
    pub sheet: &'a [u32],
    pub forward: &'a [bool],
    pub lines: usize,
    pub spans: &'a [Span],
    ghost sweepable: { Sweepable list.now sheet.now forward.now lines },
    ghost outside: { Spans list.now sheet.now forward.now lines spans.now },
}

impl Sweep<'_> {
    ghost use Rattle.sweeping.specs.Drawn.{drawn};

    // A line in the row, where its span reaches the row: in most rows it does not, and nothing else is read then.
    fn sweep_reached(&self, boards: &mut Boards, line: usize, corners: &[u32])
        requires is_line { line < self.now.lines }
        requires corners { CornersOf self.now.list.now self.now.sheet.now line corners.now }
        ensures { let d = drawn self.now in
            Visited (strand_of line (route_at d line)) boards.old (route_visits d boards.old.row (route_at d line)) boards.new }
    {
        if self.spans[line].reaches(boards.row) {
            let strand = Strand::of(self.list, line, self.forward[line]);
            sweep_line(boards, strand, strand.over(self.sheet, corners));
        }
    }

    // The lines in the row, each in its direction.
    fn sweep_lines(&self, boards: &mut Boards)
        ensures { LinesSwept (drawn self.now) boards.old boards.new }
    {
        let mut at = 1 + part_count(self.list);
        for line in 0..self.lines {
            let corners = corners_at(self.sheet, at);
            self.sweep_reached(boards, line, corners);
            at += 1 + corners.len();
        }
    }

    // All rows of the head, from the lowest up.
    pub fn sweep_rows(&self, boards: &mut Boards)
        ensures alone_after { boards.new.alone ≡ rows_alone (drawn self.now) boards.old.alone 0 ((drawn self.now).height + 1) }
        ensures pairs_after { boards.new.pairs ≡ rows_pair (drawn self.now) boards.old.pairs 0 ((drawn self.now).height + 1) }
    {
        let parts = &self.sheet[1..1 + part_count(self.list)];
        let height = Word(self.sheet[0]).second();
        for row in 0..height + 1 {
            boards.row = row;
            mark_parts(boards, parts);
            self.sweep_lines(boards);
        }
    }
}
