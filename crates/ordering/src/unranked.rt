// The parts without a rank. Where one is no candidate because it separates another from t, that one is its witness: fewer unranked parts
// make no new path, so that it needs no other walk until its witness is ranked.
ghost use Rattle.std.specs.Prelude.{◌≡◌, ◌<◌, true, false, set, replicate};
ghost use Rattle.words.specs.Limits.{most_parts};
ghost use Rattle.station.specs.Station.{station_of};
ghost use Rattle.ordering.specs.Numbers.{part_numbers};
ghost use Rattle.ordering.specs.Choices.{Witnesses, known_separator, may_be_next, eligible, chosen_part};

use reachability::walk::{Stack, Walker};
use words::Part;
use words::limits::MOST_PARTS;

// The unranked parts of a walker's station, as flags, and beside each part its witness. The flags stand in an array of their own, since a
// walk takes them as its set.
#[derive(Drop)]
pub struct Unranked<'a> {
    walker: &'a Walker<'a>,
    flags: [bool; MOST_PARTS],
    witness: [Part; MOST_PARTS],
    pub ghost witnesses: { Witnesses walker.now.list.now flags (part_numbers witness) },
}

impl<'a> Unranked<'a> {
    // At first: s has rank 0, and is every part's witness.
    pub fn all_but_source(walker: &'a Walker<'a>) -> Unranked<'a>
        ensures walker { result.walker.now ≡ walker.now }
        ensures flags { result.flags ≡ set (replicate most_parts true) (station_of walker.now.list.now).source false }
    {
        let s = walker.source();
        let mut flags = [true; MOST_PARTS];
        flags[s.0 as usize] = false;
        Unranked {
            walker,
            flags,
            witness: [s; MOST_PARTS],
        }
    }

    // Part w is known to separate its witness from t: both are unranked.
    fn is_known_separator(&self, w: Part) -> bool
        requires { w.0 < most_parts }
        ensures { result ≡ known_separator self.now.walker.now.list.now self.now.flags (part_numbers self.now.witness) w.0 }
    {
        let t = self.walker.analyser();
        let q = self.witness[w.0 as usize];
        self.flags[t.0 as usize] && self.flags[q.0 as usize]
    }

    // The tests of a candidate that need no walk: part w is unranked, is not t, is not known to separate its witness from t, and is joined
    // to a ranked part.
    fn may_be_next(&self, w: Part) -> bool
        requires { w.0 < most_parts }
        ensures { result
            ≡ may_be_next self.now.walker.now.list.now self.now.walker.now.adjacency.table self.now.flags
            (part_numbers self.now.witness) w.0 }
    {
        self.flags[w.0 as usize]
            && w != self.walker.analyser()
            && !self.is_known_separator(w)
            && self.walker.adjacency.has_neighbour(&self.flags, w, false)
    }

    // Part w is unranked and a candidate. A part that it separates from t becomes its witness.
    fn is_next(&mut self, w: Part, stack: &mut Stack) -> bool
        requires { w.0 < (station_of self.old.walker.now.list.now).parts }
        ensures value { result ≡ eligible self.old.walker.now.list.now self.old.flags w.0 }
        ensures walker { self.new.walker.now ≡ self.old.walker.now }
        ensures flags { self.new.flags ≡ self.old.flags }
    {
        if !self.may_be_next(w) {
            return false;
        }
        let Some(q) = self.walker.cut_off(&self.flags, w, stack) else {
            return true;
        };
        self.witness[w.0 as usize] = Part(q as u16);
        false
    }

    // The 'lowest-numbered' candidate, or t where there is none.
    pub fn choose(&mut self, stack: &mut Stack) -> Part
        ensures value { result.0 ≡ chosen_part self.old.walker.now.list.now self.old.flags }
        ensures walker { self.new.walker.now ≡ self.old.walker.now }
        ensures flags { self.new.flags ≡ self.old.flags }
    {
        for w in 0..self.walker.parts() {
            let part = Part(w as u16);
            if self.is_next(part, stack) {
                return part;
            }
        }
        self.walker.analyser()
    }

    // Part w gets its rank.
    pub fn remove(&mut self, w: Part)
        requires { w.0 < most_parts }
        ensures walker { self.new.walker.now ≡ self.old.walker.now }
        ensures flags { self.new.flags ≡ set self.old.flags w.0 false }
    {
        self.flags[w.0 as usize] = false;
    }
}
