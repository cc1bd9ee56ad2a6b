// What lies at the spots of an accepted sheet: for each one pass over the words of its parts and cables.
ghost use Rattle.std.specs.Prelude.{◌≡◌, map, length, get_or};
ghost use Rattle.lists.specs.Search.{seek};
ghost use Rattle.station.specs.Station.{station_of};
ghost use Rattle.geometry.specs.Spots.{spot_in, same_spot, origin};
ghost use Rattle.drawing.specs.Reading.{word_spot};
ghost use Rattle.validation.specs.Directions.{shown};
ghost use Rattle.location.specs.Hits.{mark_spot, cables_at, named, hit_at, word_to, hit_words};
ghost use Rattle.locating.specs.Code.{Readable, with_cable, Fits};

use crate::lines::passes;
use directions::corners_at;
use directions::strands::{Line, spot_in};
use geometry::Spot;
use listing::fields::{cable_count, part_count};
use location::Hit;
use words::{Mark, Part, Word};

// The part's word has the spot.
#[tactic(auto, unfolding(geometry::specs::Spots::same_spot))]
fn is_at(word: u32, spot: Spot) -> bool
    ensures { result ≡ same_spot (word_spot word) (spot_in spot) }
{
    spot_in(word) == spot
}

// The first of the parts in these words whose spot it is.
fn part_at(parts: &[u32], spot: Spot) -> Option<usize>
    ensures { result ≡ seek (λ p. same_spot (get_or (map word_spot parts.now) p origin) (spot_in spot)) 0
        (length parts.now) }
{
    parts.iter().position(|&word| is_at(word, spot))
}

// 'of two cables the lower line is named first'
fn with_cable(hit: Hit, line: u16) -> Hit
    ensures { result ≡ with_cable hit line }
{
    match hit {
        Hit::Blank => Hit::Cable(line),
        Hit::Part(part) => Hit::Part(part),
        Hit::Cable(lower) => Hit::Crossing(lower, line),
        Hit::Crossing(lower, higher) => Hit::Crossing(lower, higher),
    }
}

// An answer's word. It is no `From`, which could not ask that the numbers fit the word's fields.
fn word_of(hit: Hit) -> Word
    requires { Fits hit }
    ensures { result.0 ≡ word_to hit }
{
    match hit {
        Hit::Blank => Word::hit(Word::BLANK_HIT, 0, 0),
        Hit::Part(part) => Word::hit(Word::PART_HIT, part.0, 0),
        Hit::Cable(line) => Word::hit(Word::CABLE_HIT, line, 0),
        Hit::Crossing(lower, higher) => Word::hit(Word::CROSSING_HIT, lower, higher),
    }
}

// What the screen shows: a list, a sheet that is accepted for it, and the direction of each cable.
#[derive(Clone, Copy)]
pub struct Screen<'a> {
    pub list: &'a [u32],
    pub sheet: &'a [u32],
    pub forward: &'a [bool],
    ghost readable: { Readable list.now sheet.now forward.now },
}

impl Screen<'_> {
    // The cables whose lines have the spot.
    fn cables_at(&self, spot: Spot) -> Hit
        ensures { result ≡ named (cables_at (station_of self.now.list.now)
            (shown (station_of self.now.list.now) self.now.sheet.now) (spot_in spot)) }
    {
        let mut hit = Hit::Blank;
        let mut at = 1 + part_count(self.list);
        for i in 0..cable_count(self.list) {
            let corners = corners_at(self.sheet, at);
            let line = Line::of(self.list, self.sheet, i, self.forward[i], corners);
            if passes(line, spot) {
                hit = with_cable(hit, i as u16);
            }
            at += 1 + corners.len();
        }
        hit
    }

    // 'at a part's spot it names the part alone'
    fn hit_at(&self, spot: Spot) -> Hit
        ensures { result ≡ hit_at (station_of self.now.list.now) self.now.sheet.now (spot_in spot) }
    {
        let behind = 1 + part_count(self.list);
        match part_at(&self.sheet[1..behind], spot) {
            Some(p) => Hit::Part(Part(p as u16)),
            None => self.cables_at(spot),
        }
    }

    // The answer for one mark.
    fn answer(&self, mark: Mark) -> Word
        ensures { result.0 ≡ word_to (hit_at (station_of self.now.list.now) self.now.sheet.now (mark_spot mark.0)) }
    {
        let spot = Spot {
            x: mark.x(),
            y: mark.y(),
        };
        word_of(self.hit_at(spot))
    }

    // 'Each mark .. is answered as if alone, in the marks' sequence': in a row that is as long as the marks.
    pub fn answer_all(&self, marks: &[u32], hits: &mut [u32])
        requires { length hits.old ≡ length marks.now }
        ensures { hits.new ≡ hit_words (station_of self.now.list.now) self.now.sheet.now marks.now }
    {
        for (k, &mark) in marks.iter().enumerate() {
            hits[k] = self.answer(Mark(mark)).0;
        }
    }
}
