// The sweep of two files: the checks, the rows in turn, and the plan.
ghost use Rattle.std.specs.Prelude.{◌≡◌};
ghost use Rattle.definitions.specs.Answers.{ready};
ghost use Rattle.definitions.specs.Promises.{sweep_slices, SweepPromise, SweepCall};
ghost use Rattle.sweep_model.specs.Model.{swept};
ghost use Rattle.sweep_model.specs.Result.{Fresh};
ghost use Rattle.checks.specs.Tables.{read, Tables, chart_in, diagram_in};
ghost use Rattle.checks.specs.Ready.{walked, Ready, graph_in, automaton_in};
ghost use Rattle.sweep_offers.specs.Offers.{held, SameSlices};
ghost use Rattle.sweep_rows.specs.Standing.{at};
ghost use Rattle.sweep.specs.Runs.{Space};

use crate::conclude::conclude;
use chart_fields::StepTable;
use chart_stages::fill_first_steps;
use checks::{WalkTables, load};
use definitions::{Answer, NONE, Shape};
use rows::fill_row_starts;
use sweep_ends::begin;
use sweep_offers::Rows;
use sweep_rows::relax_rows;

// The least cost of every pair, from tables where none is reached.
fn least_costs(rows: &mut Rows<'_>, tables: WalkTables<'_>, z: Shape)
    requires ready { Ready z (walked tables) }
    requires fresh { let w = walked tables in
        Fresh (graph_in z w.read) (automaton_in z w.read) (held rows.old) }
    ensures becomes { let w = walked tables.entry in
        held rows.new ≡ swept (graph_in z w.read) (automaton_in z w.read) (at w.first) (held rows.old) }
    ensures same { SameSlices rows.old rows.new }
{
    let base = tables.row[z.start.0 as usize] as usize;
    begin(
        rows.costs,
        rows.nodes,
        &mut rows.counts,
        base,
        z.start,
        z.root,
    );
    relax_rows(rows, tables, z);
}

// The sweep of a chart and a diagram that stand in tables.
fn run(
    costs: &mut [u32],
    via: &mut [u32],
    nodes: &mut [u32],
    plan: &mut [u16],
    z: Shape,
    steps: &StepTable,
    inner: &[u32; 512],
) -> Answer
    requires tables { Tables z (read steps.now inner.now) }
    requires space { Space z (sweep_slices costs.old via.old nodes.old plan.old) }
    ensures { let t = read steps.now inner.now in
        let before = sweep_slices costs.old via.old nodes.old plan.old in
        let after = sweep_slices costs.new via.new nodes.new plan.new in
        SweepPromise (ready (chart_in z t) (diagram_in z t)) before after result }
{
    let mut first = [0u16; 257];
    fill_first_steps(&mut first, &steps.ends, z.steps, z.stages);
    let mut row = [0u32; 256];
    fill_row_starts(&mut row, z.stages as usize, z.nodes + 2);
    let tables = WalkTables {
        steps,
        inner,
        first: &first,
        row: &row,
    };
    costs[..z.stages as usize * (z.nodes + 2)].fill(NONE);
    // Built in place: out of a function over one lifetime it would not be known what becomes of the lent slices.
    let mut rows = Rows {
        costs,
        via,
        nodes,
        counts: [0; 256],
    };
    least_costs(&mut rows, tables, z);
    conclude(&rows, tables, z, plan)
}

// The least cost of every pair and a cheapest legal plan, from both files. `cost` gets the least costs; `via` and
// `nodes` are work space. Each of these three needs stage count × N entries, `plan` stage count − 1. Kept as single slices: a
// caller in C lends them so.
pub fn sweep(
    chart: &[u8],
    rules: &[u8],
    cost: &mut [u32],
    via: &mut [u32],
    nodes: &mut [u32],
    plan: &mut [u16],
) -> Answer
    ensures { let before = sweep_slices cost.old via.old nodes.old plan.old in
        let after = sweep_slices cost.new via.new nodes.new plan.new in
        SweepCall chart.now rules.now before after result }
{
    let mut steps = StepTable::blank();
    let mut inner = [0u32; 512];
    let work = cost.len().min(via.len()).min(nodes.len());
    match load(chart, rules, work, plan.len(), &mut steps, &mut inner) {
        Ok(z) => run(cost, via, nodes, plan, z, &steps, &inner),
        Err(refused) => refused.answer(0),
    }
}
