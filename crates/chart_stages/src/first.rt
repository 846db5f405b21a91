// The first step of each stage. Steps are sorted by the stage they leave, so those of one stage follow each other.
ghost use Rattle.std.specs.Prelude.{◌≡◌, ◌≤◌, replicate};
ghost use Rattle.chart_fields.specs.Ends.{froms};
ghost use Rattle.chart_stages.specs.FirstSteps.{SortedTable, EndTable, FirstTable};

use chart_fields::from_at;

// Each step in turn leaves the number behind its own at the stage behind the one that it leaves, so that of a stage's
// steps the last one's stays.
fn mark_ends(first: &mut [u16; 257], ends: &[u32; 1024], count: usize)
    requires { (first.old ≡ replicate 257 0) × SortedTable count (froms ends.now) }
    ensures { EndTable count (froms ends.now) first.new }
{
    for e in 0..count as u16 {
        let s = from_at(ends, e as usize).0 as usize;
        first[s + 1] = e + 1;
    }
}

// Fills a blank table: for each stage, and for the stage count, how many steps leave stages below it, which is the number of
// its first step. Where a stage has no steps, that of the stage before goes on; no branch depends on how many it has.
pub fn fill_first_steps(first: &mut [u16; 257], ends: &[u32; 1024], count: usize, stages: u16)
    requires { (first.old ≡ replicate 257 0) × SortedTable count (froms ends.now) × (stages ≤ 256) }
    ensures { FirstTable count stages (froms ends.now) first.new }
{
    mark_ends(first, ends, count);
    let mut most: u16 = 0;
    for s in 1..stages as usize + 1 {
        most = most.max(first[s]);
        first[s] = most;
    }
}
