// The guided search of two files: the checks, the search, and the plan.
ghost use Rattle.definitions.specs.Promises.{guided_slices, GuidedCall};
ghost use Rattle.checks.specs.Tables.{read, Tables};
ghost use Rattle.chart.specs.Tables.{steps_in};
ghost use Rattle.guided_ends.specs.Ends.{Ending, Concludes};
ghost use Rattle.guided_loop.specs.Views.{SameLent};
ghost use Rattle.guided.specs.Runs.{with_plan, Room, Runs};

use chart_fields::StepTable;
use checks::{WalkTables, load};
use definitions::{Answer, Shape};
use guided_ends::{Ended, conclude};
use guided_loop::Slices;
use guided_seek::{fill_tables, seek};

// The answer by how a search ended that left these slices. By itself: of a slice lent on from a struct nothing is known after.
fn answer<'t>(
    slices: &Slices<'_>,
    tables: WalkTables<'t>,
    z: Shape,
    ended: Ended,
    plan: &mut [u16],
) -> Answer
    requires { Ending z slices.now.via.now (steps_in tables.steps.now) tables.row.now ended plan.old }
    ensures { let steps = steps_in tables.entry.steps.now in
        Concludes z slices.now.via.now steps tables.entry.row.now ended plan.old plan.new result }
{
    conclude(slices.via, tables.steps, tables.row, z, ended, plan)
}

// The guided search of a chart and a diagram that stand in tables.
fn run<'t>(
    slices: &mut Slices<'_>,
    plan: &mut [u16],
    z: Shape,
    steps: &'t StepTable,
    inner: &'t [u32; 512],
) -> Answer
    requires tables { Tables z (read steps.now inner.now) }
    requires room { Room z (with_plan slices.old plan.old) }
    ensures same { SameLent slices.old slices.new }
    ensures runs { let before = with_plan slices.old plan.old in
        Runs z (read steps.now inner.now) before (with_plan slices.new plan.new) result }
{
    let mut first = [0u16; 257];
    let mut row = [0u32; 256];
    let mut by_node = [0u32; 512];
    fill_tables(&mut first, &mut row, &mut by_node, z, steps, inner);
    let tables = WalkTables {
        steps,
        inner,
        first: &first,
        row: &row,
    };
    let ended = seek(slices, tables, &by_node, z);
    answer(slices, tables, z, ended, plan)
}

// A cheapest legal plan from both files, found by the guided search. `log` gets the settled pairs in order; `keys`, `via`,
// `heap`, `pos` and `stack` are work space. Each of these six needs stage count × N entries, `plan` stage count − 1.
// Kept as six slices: a caller in C lends them so.
pub fn guided(
    chart: &[u8],
    rules: &[u8],
    keys: &mut [u32],
    via: &mut [u32],
    heap: &mut [u32],
    pos: &mut [u32],
    stack: &mut [u32],
    log: &mut [u32],
    plan: &mut [u16],
) -> Answer
    ensures { let before =
        guided_slices keys.old via.old heap.old pos.old
        stack.old log.old plan.old in
        let after =
        guided_slices keys.new via.new heap.new pos.new
        stack.new log.new plan.new in
        GuidedCall chart.now rules.now before after result }
{
    let mut steps = StepTable::blank();
    let mut inner = [0u32; 512];
    let shorter = keys.len().min(via.len()).min(heap.len()).min(pos.len());
    let work = shorter.min(stack.len()).min(log.len());
    match load(chart, rules, work, plan.len(), &mut steps, &mut inner) {
        Ok(z) => {
            let mut slices = Slices {
                keys,
                via,
                heap,
                pos,
                stack,
                log,
            };
            run(&mut slices, plan, z, &steps, &inner)
        }
        Err(refused) => refused.answer(0),
    }
}
