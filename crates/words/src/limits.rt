// The limits of document 01, those that follow from them, and the lengths of the tables that have room for every station within them.

// 'A station has 3 to' 512 'parts' (2026-11: 'Check 4 allows 512').
pub const LEAST_PARTS: usize = 3;

pub const MOST_PARTS: usize = 512;

// The greatest degree: 'a part with more than four cables' is refused.
pub const MOST_DEGREE: usize = 4;

// Every cable is one of the cables of two parts.
pub const MOST_CABLES: usize = MOST_DEGREE * MOST_PARTS / 2;

// 'The sheet has .. 3m - n + 3 + d + e words', where d and e are at most 1 and m at most 2n, and m + 1 lengths (2026-01).
pub const MOST_WORDS: usize = 4 * MOST_CABLES - MOST_PARTS + 4 + 1 + 1;

// And with 'm + 1 words' of prices (2026-05).
pub const MOST_QUOTED_WORDS: usize = MOST_WORDS + MOST_CABLES + 1;

// The greatest number that 'two 12-bit fields' hold each.
pub const MOST_FIELD: usize = 4095;

// 2026-10: 'up to 64 points'.
pub const MOST_MARKS: usize = 64;

// Room for the neighbours of each part.
pub const NEIGHBOUR_PLACES: usize = MOST_DEGREE * MOST_PARTS;

// The adjacency table: for each part the places of its neighbours, and how many they are.
pub const ADJACENCY_PLACES: usize = NEIGHBOUR_PLACES + MOST_PARTS;

// The stack of a walk, which puts the parts that it starts from on it, at most two, and then each part's neighbours in place of the part: a
// walk has at most 2 + 4n parts on it, and the last ones put there are at most four.
pub const STACK_PLACES: usize = NEIGHBOUR_PLACES + MOST_DEGREE + 1;
