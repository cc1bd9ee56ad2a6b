// The two tables by column of a sweep over the rows of a sheet (request 2026-09). A cell has the row that it was written in and a number;
// what was written in an earlier row counts for nothing.
#![tactic(auto)]

ghost use Rattle.std.specs.Prelude.{◌≡◌, false, cond, ◌+◌, ◌^◌, ◌<◌, length, get_or, eqb};
ghost use Rattle.sweep.specs.Visits.{visit_at};
ghost use Rattle.sweep.specs.Boards as tables;
ghost use Rattle.sweep.specs.Boards.{number_in, in_row, lowest_place, shared, has_bit};
ghost use Rattle.sweep.specs.Sweep.{alone_places, pair_places, blank};
ghost use Rattle.directions.specs.Code.{strand_in};
ghost use Rattle.boards.specs.Code.{wrong_cells};

use directions::strands::Strand;
use geometry::Spot;
use words::Part;

// Behind the cells of all columns stands the lowest line found wrong.
const LOWEST: usize = 8192;

const ALONE_PLACES: usize = LOWEST + 1;

// Behind that the pairs of lines that cross, 32 to a word.
const CROSSINGS: usize = LOWEST + 1;

const PAIR_PLACES: usize = CROSSINGS + 32 * 1024;

// The mark of two parts in one spot.
const SHARED: u16 = 1023;

// A cell: a number, and the row that it was written in. The tables are rows of words, since `sweep::specs::Boards` says so.
#[derive(Clone, Copy, Debug, PartialEq, Eq)]
struct Cell(u32);

impl Cell {
    fn stamp(y: u16, number: u16) -> Cell
        ensures { result.0 ≡ tables.stamp y number }
    {
        Cell((y as u32 + 1) * 1024 + number as u32)
    }

    #[tactic(auto, unfolding(sweep::specs::Boards::in_row))]
    fn is_in_row(self, y: u16) -> bool
        ensures { result ≡ in_row y self.0 }
    {
        self.0 / 1024 == y as u32 + 1
    }

    fn number(self) -> u16
        ensures { result ≡ number_in self.0 }
    {
        (self.0 % 1024) as u16
    }
}

// The line is wrong.
#[tactic(auto, unfolding(sweep::specs::Boards::blame))]
fn blame(board: &mut [u32], line: u16)
    requires { lowest_place < length board.old }
    ensures { board.new ≡ tables.blame board.old line }
{
    board[LOWEST] = board[LOWEST].min(line as u32);
}

// What a column's cell has once a part is marked there.
fn part_mark(y: u16, cell: Cell, part: Part) -> Cell
    ensures { result.0 ≡ cond (in_row y cell.0) (tables.stamp y shared) (tables.stamp y part.0) }
{
    if cell.is_in_row(y) {
        Cell::stamp(y, SHARED)
    } else {
        Cell::stamp(y, part.0)
    }
}

// The cells of a column show that the line was there before, or a part that it does not join.
fn is_wrong(y: u16, strand: Strand, part_cell: Cell, line_cell: Cell) -> bool
    ensures { result ≡ wrong_cells y (strand_in strand) part_cell.0 line_cell.0 }
{
    let part = Part(part_cell.number());
    line_cell == Cell::stamp(y, strand.line)
        || part_cell.is_in_row(y) && part != strand.one && part != strand.other
}

#[tactic(auto, unfolding(sweep::specs::Boards::visit_alone, sweep::specs::Boards::was_here, sweep::specs::Boards::foreign))]
fn visit_alone(board: &mut [u32; ALONE_PLACES], y: u16, strand: Strand, x: usize)
    requires { x < 4096 }
    ensures { board.new ≡ tables.visit_alone y (strand_in strand) board.old x }
{
    let wrong = is_wrong(y, strand, Cell(board[2 * x]), Cell(board[2 * x + 1]));
    board[2 * x + 1] = Cell::stamp(y, strand.line).0;
    if wrong {
        blame(board, strand.line);
    }
}

#[tactic(auto, unfolding(sweep::specs::Boards::has_bit))]
fn has_bit(w: u32, b: u32) -> bool
    requires { b < 32 }
    ensures { result ≡ has_bit w b }
{
    (w >> b) % 2 == 1
}

// Number b put into a set of 32.
fn with_bit(w: u32, b: u32) -> u32
    requires bit_bound { b < 32 }
    requires bit_unset { has_bit w b ≡ false }
    ensures { result ≡ w + 2 ^ b }
{
    w + (1 << b)
}

// Two lines cross: the second time it is wrong.
#[tactic(auto, unfolding(sweep::specs::Boards::cross))]
fn cross(board: &mut [u32; PAIR_PLACES], u: u16, j: u16)
    requires one_bound { u < 1024 }
    requires other_bound { j < 1024 }
    ensures { board.new ≡ tables.cross board.old u j }
{
    let place = CROSSINGS + 32 * (u as usize) + j as usize / 32;
    let b = (j % 32) as u32;
    let w = board[place];
    if has_bit(w, b) {
        blame(board, u);
        return;
    }
    board[place] = with_bit(w, b);
}

// The line is wrong with the first that has the spot on a run of the same kind.
#[tactic(auto, unfolding(sweep::specs::Boards::lay_over))]
fn lay_over(board: &mut [u32; PAIR_PLACES], y: u16, strand: Strand, own: usize)
    requires { own < lowest_place }
    ensures { board.new ≡ tables.lay_over y strand.line own board.old }
{
    let cell = Cell(board[own]);
    let first = cell.number();
    if cell.is_in_row(y) {
        blame(board, first);
        return;
    }
    board[own] = Cell::stamp(y, strand.line).0;
}

// It crosses the first that has the spot on a run of the other kind.
#[tactic(auto, unfolding(sweep::specs::Boards::cross_over))]
fn cross_over(board: &mut [u32; PAIR_PLACES], y: u16, strand: Strand, other: usize)
    requires { other < lowest_place }
    ensures { board.new ≡ tables.cross_over y strand.line other board.old }
{
    let cell = Cell(board[other]);
    if cell.is_in_row(y) && cell.number() != strand.line {
        cross(board, cell.number(), strand.line);
    }
}

// The line has the spot on a run of one kind, where this is so: a choice of its own, since what follows it starts from one table.
#[tactic(auto, unfolding(sweep::specs::Boards::pass_column))]
fn pass_if(
    board: &mut [u32; PAIR_PLACES],
    y: u16,
    strand: Strand,
    on: bool,
    own: usize,
    other: usize,
)
    requires own_bound { own < lowest_place }
    requires other_bound { other < lowest_place }
    ensures { board.new ≡ cond on (tables.pass_column y strand.line own other board.old) board.old }
{
    if on {
        lay_over(board, y, strand, own);
        cross_over(board, y, strand, other);
    }
}

// A spot of a line: its column, and whether it is on a level run and on an upright run, both at a corner and neither at an end.
#[derive(Clone, Copy, Debug, PartialEq, Eq)]
pub struct Visit {
    pub column: usize,
    pub level: bool,
    pub upright: bool,
}

#[tactic(auto, unfolding(sweep::specs::Boards::visit_pair))]
fn visit_pair(board: &mut [u32; PAIR_PLACES], y: u16, strand: Strand, visit: Visit)
    requires { visit.column < 4096 }
    ensures { board.new ≡ tables.visit_pair y strand.line board.old (visit_at visit.column visit.level visit.upright) }
{
    let level = 2 * visit.column;
    let upright = level + 1;
    pass_if(board, y, strand, visit.level, level, upright);
    pass_if(board, y, strand, visit.upright, upright, level);
}

// The row that is swept, and the two tables: one in which a line is held against itself and the parts, one in which lines are held against
// each other.
#[derive(Drop)]
pub struct Boards {
    pub row: u16,
    pub alone: [u32; ALONE_PLACES],
    pub pairs: [u32; PAIR_PLACES],
}

impl Boards {
    // Tables in which nothing has been written.
    #[tactic(auto, unfolding(sweep::specs::Sweep::blank))]
    pub fn blank(lines: u32) -> Boards
        ensures alone_blank { result.alone ≡ blank alone_places lines }
        ensures pairs_blank { result.pairs ≡ blank pair_places lines }
    {
        let mut alone = [0; ALONE_PLACES];
        let mut pairs = [0; PAIR_PLACES];
        alone[LOWEST] = lines;
        pairs[LOWEST] = lines;
        Boards {
            row: 0,
            alone,
            pairs,
        }
    }

    // A part stands in this spot: it is marked in the spot's column, where the spot is in the row.
    #[tactic(auto, unfolding(sweep::specs::Boards::mark_part))]
    pub fn mark_part(&mut self, part: Part, spot: Spot)
        requires { spot.x < 4096 }
        ensures row_stays { self.new.row ≡ self.old.row }
        ensures alone_after { self.new.alone ≡ cond (eqb spot.y self.old.row)
            (tables.mark_part self.old.row self.old.alone part.0 spot.x) self.old.alone }
        ensures pairs_stay { self.new.pairs ≡ self.old.pairs }
    {
        if spot.y == self.row {
            let place = 2 * spot.x as usize;
            self.alone[place] = part_mark(self.row, Cell(self.alone[place]), part).0;
        }
    }

    // One spot of a line in the row, held against what both tables have of its column, which is within them by the head of its sheet.
    pub fn visit(&mut self, strand: Strand, visit: Visit)
        requires { visit.column < 4096 }
        ensures row_stays { self.new.row ≡ self.old.row }
        ensures alone_after { self.new.alone ≡ tables.visit_alone self.old.row (strand_in strand) self.old.alone visit.column }
        ensures pairs_after { self.new.pairs ≡ tables.visit_pair self.old.row strand.line self.old.pairs
            (visit_at visit.column visit.level visit.upright) }
    {
        visit_alone(&mut self.alone, self.row, strand, visit.column);
        visit_pair(&mut self.pairs, self.row, strand, visit);
    }

    // The lowest line that is wrong by itself, or the count of lines.
    pub fn lowest_alone(&self) -> usize
        ensures { result ≡ get_or self.now.alone lowest_place 0 }
    {
        self.alone[LOWEST] as usize
    }

    // The lowest line of a pair that meets wrongly, or the count of lines.
    pub fn lowest_pair(&self) -> usize
        ensures { result ≡ get_or self.now.pairs lowest_place 0 }
    {
        self.pairs[LOWEST] as usize
    }
}
