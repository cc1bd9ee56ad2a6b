// The layout of a station's cables in ranks: the columns of parts and cables, and the course of each cable.
#![tactic(auto)]

use geometry::Spot;
use ranking::graph::Graph;
use words::limits::{MOST_CABLES, MOST_PARTS};

mod connections;
mod courses;
mod laying;
mod placing;

ghost use Rattle.placement.specs.Laid.{IsLaidOut};

pub use laying::lay_out;

// A cable's course: its two parts' spots, its lower and its upper lane, and its column.
#[derive(Clone, Copy, Debug, PartialEq, Eq)]
pub struct Course {
    pub from: Spot,
    pub low: u16,
    pub column: u16,
    pub high: u16,
    pub to: Spot,
}

// The column of each cable by line and of each part by rank, and the count of columns.
#[derive(Clone, Copy)]
pub struct Columns {
    pub cables: [u16; MOST_CABLES],
    pub parts: [u16; MOST_PARTS],
    pub count: u16,
}

// The layout of a graph: its columns, document 01's d and e, and the course of each cable by line.
#[derive(Clone, Copy)]
pub struct Layout {
    pub graph: Graph,
    pub columns: Columns,
    pub bottom_rows: u16,
    pub top_rows: u16,
    pub courses: [Course; MOST_CABLES],
    ghost is_laid_out: { IsLaidOut graph columns bottom_rows top_rows courses },
}
