// Walks among the parts of a set (checks 9 and 10, and 'The order of parts' in document 01).
ghost use Rattle.std.specs.Prelude.{◌≡◌, false, [], ◌∷◌, ◌+◌, ◌<◌, ◌≤◌, get_or};
ghost use Rattle.words.specs.Limits.{most_degree, most_parts};
ghost use Rattle.words.specs.Rooms.{stack_places};
ghost use Rattle.lists.specs.Search.{seek};
ghost use Rattle.lists.specs.Select.{without};
ghost use Rattle.station.specs.Station.{station_of};
ghost use Rattle.station.specs.Code.{Wired};
ghost use Rattle.order.specs.Reach.{unreached, separated};
ghost use Rattle.reachability.specs.Tables.{neighbours_in, Adjacent, set_of, from_top};
ghost use Rattle.reachability.specs.Tables.{Pushed, Starting, Steppable, Stepped, Across, CutOff};

use crate::adjacency::Adjacency;
use listing::fields;
use words::Part;
use words::limits::{MOST_PARTS, STACK_PLACES};

// The parts that a walk is still to visit. It is lent, since to clear one for each walk would take longer than most walks; what it holds
// counts for nothing.
pub type Stack = [Part; STACK_PLACES];

// The parts of a list's station, each with its neighbours.
#[derive(Drop)]
pub struct Walker<'a> {
    list: &'a [u32],
    pub adjacency: Adjacency,
    pub ghost adjacent: { Adjacent list.now adjacency.table },
}

impl<'a> Walker<'a> {
    pub fn new(list: &'a [u32]) -> Walker<'a>
        requires { Wired (station_of list.now) }
        ensures { result.list.now ≡ list.now }
    {
        Walker {
            list,
            adjacency: Adjacency::of(list),
        }
    }

    // The count of its parts.
    #[tactic(auto, using(station::proofs::Passed::wired_words))]
    pub fn parts(&self) -> usize
        ensures value { result ≡ (station_of self.now.list.now).parts }
        ensures most { result ≤ most_parts }
    {
        fields::part_count(self.list)
    }

    // s, the source.
    #[tactic(auto, using(station::proofs::Passed::wired_words))]
    pub fn source(&self) -> Part
        ensures value { result.0 ≡ (station_of self.now.list.now).source }
        ensures inside { result.0 < (station_of self.now.list.now).parts }
        ensures most { result.0 < most_parts }
    {
        fields::source(self.list)
    }

    // t, the analyser.
    #[tactic(auto, using(station::proofs::Passed::wired_words))]
    pub fn analyser(&self) -> Part
        ensures value { result.0 ≡ (station_of self.now.list.now).analyser }
        ensures inside { result.0 < (station_of self.now.list.now).parts }
        ensures most { result.0 < most_parts }
    {
        fields::analyser(self.list)
    }

    // The neighbours of p put on the stack, the first on top. The stack's height after it.
    fn push(&self, p: Part, stack: &mut Stack, top: usize) -> usize
        requires part_inside { p.0 < most_parts }
        requires room { top + most_degree ≤ stack_places }
        ensures { Pushed (neighbours_in self.now.adjacency.table p.0) stack.old top stack.new result }
    {
        let neighbours = self.adjacency.neighbours(p);
        let mut at = top;
        for j in (0..neighbours.len()).rev() {
            stack[at] = neighbours[j];
            at += 1;
        }
        at
    }

    // One step of a walk. The stack's height after it.
    fn step(&self, left: &mut [bool; MOST_PARTS], stack: &mut Stack, top: usize) -> usize
        requires { Steppable stack.old top }
        ensures { Stepped self.now.adjacency.table left.old stack.old top left.new stack.new result }
    {
        let p = stack[top - 1];
        if left[p.0 as usize] {
            left[p.0 as usize] = false;
            return self.push(p, stack, top - 1);
        }
        top - 1
    }

    // A walk from the parts on the stack, of height top: the parts of a set that they reach inside the set are taken out of it.
    fn take_reached(&self, left: &mut [bool; MOST_PARTS], stack: &mut Stack, top: usize)
        requires { Starting self.now.list.now stack.old top }
        ensures { set_of self.now.list.now left.new
            ≡ unreached (station_of self.now.list.now).cables (set_of self.now.list.now left.old) (from_top stack.old top) }
    {
        let mut height = top;
        while 0 < height {
            height = self.step(left, stack, height);
        }
    }

    // The parts of a set that part p does not reach inside the set.
    pub fn walk_from(
        &self,
        set: [bool; MOST_PARTS],
        p: Part,
        stack: &mut Stack,
    ) -> [bool; MOST_PARTS]
        requires { p.0 < (station_of self.now.list.now).parts }
        ensures { set_of self.now.list.now result
            ≡ unreached (station_of self.now.list.now).cables (set_of self.now.list.now set) (p.0 ∷ []) }
    {
        let mut left = set;
        stack[0] = p;
        self.take_reached(&mut left, stack, 1);
        left
    }

    // The parts that v separates from both ends: one walk without v, from s and t together.
    pub fn separated_by(&self, v: Part, stack: &mut Stack) -> [bool; MOST_PARTS]
        requires { v.0 < most_parts }
        ensures { set_of self.now.list.now result ≡ separated (station_of self.now.list.now) v.0 }
    {
        let mut left = [true; MOST_PARTS];
        left[v.0 as usize] = false;
        stack[0] = self.analyser();
        stack[1] = self.source();
        self.take_reached(&mut left, stack, 2);
        left
    }

    // A part that a walk through a set divides from t: a neighbour of v where there is one, and else q, which is such a part. The order
    // tries v again only once this part is ranked, and v has at most four neighbours.
    fn beside(
        &self,
        v: Part,
        set: &[bool; MOST_PARTS],
        left: &[bool; MOST_PARTS],
        q: usize,
    ) -> usize
        requires part_inside { v.0 < most_parts }
        requires across { Across self.now.list.now set.now left.now q }
        ensures { Across self.now.list.now set.now left.now result }
    {
        let t = self.analyser().0 as usize;
        let neighbours = self.adjacency.neighbours(v);
        for j in (0..neighbours.len()).rev() {
            let x = neighbours[j].0 as usize;
            if set[x] && left[x] != left[t] {
                return x;
            }
        }
        q
    }

    // Of the parts of a set: one that has no path to t inside the set, beside v where there is one, or nothing where they are joined to
    // each other.
    fn cut_off_in(&self, set: [bool; MOST_PARTS], v: Part, stack: &mut Stack) -> Option<usize>
        requires { v.0 < most_parts }
        ensures { CutOff self.now.list.now (set_of self.now.list.now set) result }
    {
        let n = self.parts();
        let t = self.analyser().0 as usize;
        let p = lowest(&set, n)?;
        let left = self.walk_from(set, Part(p as u16), stack);
        if left[t] {
            return Some(self.beside(v, &set, &left, p));
        }
        let q = lowest(&left, n)?;
        Some(self.beside(v, &set, &left, q))
    }

    // The same of the parts of a set other than v.
    pub fn cut_off(&self, set: &[bool; MOST_PARTS], v: Part, stack: &mut Stack) -> Option<usize>
        requires { v.0 < most_parts }
        ensures { CutOff self.now.list.now (without v.0 (set_of self.now.list.now set.now)) result }
    {
        let mut rest = *set;
        rest[v.0 as usize] = false;
        self.cut_off_in(rest, v, stack)
    }
}

// The lowest part of a set.
pub fn lowest(set: &[bool; MOST_PARTS], n: usize) -> Option<usize>
    requires { n ≤ most_parts }
    ensures { result ≡ seek (λ p. get_or set.now p false) 0 n }
{
    set[..n].iter().position(|&inside| inside)
}
