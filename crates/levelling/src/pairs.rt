// The two floats of each part in a row, 'by part number, the least before the greatest'.
ghost use Rattle.std.specs.Prelude.{◌≡◌, ◌+◌, ◌*◌, ◌<◌, length, set};
ghost use Rattle.levelling.specs.Pass.{levels_in};

use levels::Levels;

pub fn get(row: &[f32], p: usize) -> Levels
    requires { 2 * p + 1 < length row.now }
    ensures { result ≡ levels_in row.now p }
{
    Levels {
        least: row[2 * p],
        greatest: row[2 * p + 1],
    }
}

pub fn put(row: &mut [f32], p: usize, levels: Levels)
    requires { 2 * p + 1 < length row.old }
    ensures { row.new ≡ set (set row.old (2 * p) levels.least) (2 * p + 1) levels.greatest }
{
    row[2 * p] = levels.least;
    row[2 * p + 1] = levels.greatest;
}
