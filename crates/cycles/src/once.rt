// What is done once for a list: the checks, and the tables that no start or end changes.
ghost use Rattle.std.specs.Prelude.{[], ◌∷◌};
ghost use Rattle.definitions.specs.Answers.{load_work};
ghost use Rattle.checks.specs.Tables.{read};
ghost use Rattle.checks.specs.Ready.{walk};
ghost use Rattle.cycles.specs.Cycles.{Blank, PreparesAs};

use chart_fields::StepTable;
use checks::{Refused, load};
use definitions::Shape;
use guided_seek::fill_tables;

// No plan slice is lent: the longest plan that any chart has, so that none is asked for.
const MOST_STEPS: usize = 255;

// Checks both files and the lengths of the six slices that each search is lent, and fills the tables. It takes the lengths alone:
// no slice needs to be there yet. The tables stand one by one: each is filled by a call of its own.
pub fn prepare(
    chart: &[u8],
    rules: &[u8],
    keys: usize,
    via: usize,
    heap: usize,
    pos: usize,
    stack: usize,
    log: usize,
    steps: &mut StepTable,
    inner: &mut [u32; 512],
    first: &mut [u16; 257],
    row: &mut [u32; 256],
    by_node: &mut [u32; 512],
) -> Result<Shape, Refused>
    requires { Blank steps.old inner.old first.old row.old by_node.old }
    ensures { let o = load_work chart.now rules.now (keys ∷ via ∷ heap ∷ pos ∷ stack ∷ log ∷ []) in
        let on = walk (read steps.new inner.new) first.new row.new in
        PreparesAs o on by_node.new result }
{
    let shorter = keys.min(via).min(heap).min(pos);
    let work = shorter.min(stack).min(log);
    let z = load(chart, rules, work, MOST_STEPS, steps, inner)?;
    fill_tables(first, row, by_node, z, steps, inner);
    Ok(z)
}
