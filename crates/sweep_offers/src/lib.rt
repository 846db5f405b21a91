// One step of the sweep: a pair is offered a cost, and keeps the least.
#![tactic(auto)]

ghost use Rattle.std.specs.Prelude.{◌≡◌};
ghost use Rattle.sweep_model.specs.Model.{rows, offer as offered};
ghost use Rattle.chart.specs.Tables.{steps_in};
ghost use Rattle.sweep_offers.specs.Offers.{Open, Offering, stepped, held, SameSlices};

use chart_fields::StepTable;
use checks::WalkTables;
use definitions::{NONE, Node, Stage, Step};
use via_marks::packed;

// The tables of the sweep. By pair: its cost, NONE where it is not reached, and by what it was reached; by row: the reached
// nodes, in the order in which they were; by stage: how many they are.
#[derive(Drop)]
pub struct Rows<'a> {
    pub costs: &'a mut [u32],
    pub via: &'a mut [u32],
    pub nodes: &'a mut [u32],
    pub counts: [u32; 256],
}

// The pair of stage s, whose row starts at `base`, and node t is offered the cost v. `mark` has the step and the node
// that offer it.
fn offer(
    costs: &mut [u32],
    via: &mut [u32],
    nodes: &mut [u32],
    counts: &mut [u32; 256],
    base: usize,
    s: Stage,
    t: Node,
    v: u32,
    mark: u32,
)
    requires { Open base s.0 t.0 (rows costs.old via.old nodes.old counts.old) }
    ensures { let before = rows costs.old via.old nodes.old counts.old in
        let after = rows costs.new via.new nodes.new counts.new in
        after ≡ offered base s.0 t.0 v mark before }
{
    let pair = base + t.0 as usize;
    let old = costs[pair];
    if old <= v {
        return;
    }
    // None is NONE: the cost slice that a caller lends has numbers.
    if old == NONE {
        let stage = s.0 as usize;
        let k = counts[stage];
        nodes[base + k as usize] = t.0 as u32;
        counts[stage] = k + 1;
    }
    costs[pair] = v;
    via[pair] = mark;
}

// Node n at cost v offers by step e, which leads to node t; to node 0 it offers nothing.
pub fn relax_step(
    costs: &mut [u32],
    via: &mut [u32],
    nodes: &mut [u32],
    counts: &mut [u32; 256],
    steps: &StepTable,
    row: &[u32; 256],
    e: Step,
    n: Node,
    v: u32,
    t: Node,
)
    requires { Offering (steps_in steps.now) row.now e.0 n.0 v t.0 (rows costs.old via.old nodes.old counts.old) }
    ensures { let before = rows costs.old via.old nodes.old counts.old in
        let after = rows costs.new via.new nodes.new counts.new in
        after ≡ stepped (steps_in steps.now) row.now e.0 n.0 v t.0 before }
{
    if t.0 == 0 {
        return;
    }
    let s = steps.to(e);
    let base = row[s.0 as usize] as usize;
    let mark = packed(s, e, n);
    let total = v + steps.cost(e);
    offer(costs, via, nodes, counts, base, s, t, total, mark);
}

impl Rows<'_> {
    // The same, of all tables together.
    pub fn relax_step(&mut self, tables: WalkTables<'_>, e: Step, n: Node, v: u32, t: Node)
        requires { Offering (steps_in tables.steps.now) tables.row.now e.0 n.0 v t.0 (held self.old) }
        ensures becomes { held self.new ≡ stepped (steps_in tables.entry.steps.now) tables.entry.row.now e.0 n.0 v t.0 (held self.old) }
        ensures same { SameSlices self.old self.new }
    {
        relax_step(
            self.costs,
            self.via,
            self.nodes,
            &mut self.counts,
            tables.steps,
            tables.row,
            e,
            n,
            v,
            t,
        );
    }
}
