// The number at which each stage's row of pairs starts: stage × N.
#![tactic(auto)]

ghost use Rattle.std.specs.Prelude.{◌≤◌, ◌≡◌, replicate};
ghost use Rattle.definitions.specs.Pairs.{row_starts};

// Fills a blank table of 256 row starts for a chart of so many stages and rows of `width` nodes.
pub fn fill_row_starts(row: &mut [u32; 256], stages: usize, width: usize)
    requires { (row.old ≡ replicate 256 0) × (stages ≤ 256) × (width ≤ 512) }
    ensures { row.new ≡ row_starts stages width }
{
    let gap = width as u32;
    let mut at: u32 = 0;
    // The next start is counted on: no loop of a search multiplies by N.
    for s in 0..stages {
        row[s] = at;
        at += gap;
    }
}
