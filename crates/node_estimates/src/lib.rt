// The diagram estimates of the nodes of a rule diagram that stands in a table, and what the groups of a chart cost.
#![tactic(auto)]

ghost use Rattle.std.specs.Prelude.{◌≡◌, ◌+◌, ◌<◌, min, length, get_or, replicate};
ghost use Rattle.definitions.specs.Basics.{NONE};
ghost use Rattle.definitions.specs.Plans.{graph};
ghost use Rattle.theory.specs.Limits.{Small, Valid};
ghost use Rattle.chart.specs.Tables.{steps_in, chart_in};
ghost use Rattle.diagram_fields.specs.Words.{nodes_in};
ghost use Rattle.nodes.specs.Walks.{Falls};
ghost use Rattle.node_estimates.specs.Estimates.{Priced, Costs, Estimated};

use chart_fields::StepTable;
use definitions::{Group, NONE, Node, Shape, Step};
use diagram_fields::{hi_at, lo_at, step_at};

// The smaller of two estimates, one of them with a cost added. A sum is wider than an estimate, so one with none, which is
// the largest of them, is never the smaller.
fn join(low: u32, high: u32, cost: u32) -> u32
    ensures { result ≡ min low (high + cost) }
{
    let through = high as usize + cost as usize;
    (low as usize).min(through) as u32
}

// An inner node's estimate: the smaller of that at lo and that at hi with the cost of its group. A group that is never present
// costs NONE, so that its hi is ignored.
fn inner_estimate<'a>(
    estimates: &'a [u32; 512],
    cost: &'a [u32; 1024],
    e: Group,
    lo: Node,
    hi: Node,
) -> u32
    requires { (e.0 < 1024) × (lo.0 < 512) × (hi.0 < 512) }
    ensures { let by = estimates.now in
        result ≡ min (get_or by lo.0 0) (get_or by hi.0 0 + get_or cost.now e.0 0) }
{
    let low = estimates[lo.0 as usize];
    let high = estimates[hi.0 as usize];
    join(low, high, cost[e.0 as usize])
}

// Fills the table: the estimate of each node of a diagram that stands in the tables, from node 0 up, by what each group costs.
pub fn fill_diagram_estimates<'a>(
    estimates: &mut [u32; 512],
    z: Shape,
    inner: &'a [u32; 512],
    cost: &'a [u32; 1024],
)
    requires sound { let t = nodes_in inner.now in
        Falls t.lo (z.nodes + 1) × Falls t.hi (z.nodes + 1) × Priced t.step cost.now z.nodes }
    requires long_enough { length estimates.old ≡ 512 }
    ensures { let t = nodes_in inner.now in
        Estimated t.step t.lo t.hi cost.now z.nodes estimates.new }
{
    let count = z.nodes;
    estimates[0] = NONE;
    estimates[1] = 0;
    for n in 2..count + 2 {
        let e = step_at(inner, n);
        let lo = lo_at(inner, n);
        let hi = hi_at(inner, n);
        estimates[n] = inner_estimate(estimates, cost, Group(e), Node(lo), Node(hi));
    }
}

// Fills the table, which is NONE at first: for each group the smallest cost among its steps.
pub fn fill_prices(price: &mut [u32; 1024], z: Shape, steps: &StepTable)
    requires none_yet { price.old ≡ replicate 1024 NONE }
    requires sound { let c = chart_in z (steps_in steps.now) in Valid (graph c) × Small c }
    ensures { Costs (chart_in z (steps_in steps.now)) price.new }
{
    for e in 0..z.steps as u16 {
        let step = Step(e);
        let k = steps.group(step).0 as usize;
        price[k] = price[k].min(steps.cost(step));
    }
}
