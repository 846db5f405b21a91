// The plan traced back: each pair keeps the step by which it was reached and the node that the step left.
#![tactic(auto)]

ghost use Rattle.std.specs.Prelude.{◌≡◌, ◌+◌, ◌-◌, ◌≤◌, ◌<◌, length, get_or, drop, ◌++◌, reverse};
ghost use Rattle.chart_fields.specs.Ends.{froms};
ghost use Rattle.trace.specs.Trails.{CameFrom, Traceable};

use chart_fields::from_at;
use definitions::{Node, Stage, Step};
use via_marks::{node_in, step_in};

// A step, and the stage and node that it left.
#[derive(Clone, Copy)]
pub struct Predecessor {
    pub step: Step,
    pub stage: Stage,
    pub node: Node,
}

// The number of the pair of stage s and node n.
pub fn pair_at(row: &[u32; 256], s: Stage, n: Node) -> usize
    requires { s.0 < 256 }
    ensures { result ≡ get_or row.now s.0 0 + n.0 }
{
    row[s.0 as usize] as usize + n.0 as usize
}

// What a pair was reached from, by the mark that it keeps.
fn came_from(ends: &[u32; 1024], mark: u32) -> Predecessor
    ensures { CameFrom (froms ends.now) mark result }
{
    let step = step_in(mark);
    Predecessor {
        step,
        stage: from_at(ends, step.0 as usize),
        node: node_in(mark),
    }
}

// Writes the steps that lead from the start to a pair to the front of the plan, the last one first, and answers how many
// they are.
fn trace_back<'a>(
    via: &'a [u32],
    ends: &'a [u32; 1024],
    row: &'a [u32; 256],
    start: Stage,
    stage: Stage,
    node: Node,
    plan: &mut [u16],
) -> usize
    requires traceable { Traceable via.now (froms ends.now) row.now start.0 stage.0 node.0 }
    requires fits { stage.0 - start.0 ≤ length plan.old }
    ensures { (x : Traceable via.now (froms ends.now) row.now start.0 stage.0 node.0)
        → (result ≡ length x.steps) × (plan.new ≡ reverse x.steps ++ drop result plan.old) }
{
    let mut s = stage;
    let mut n = node;
    let mut count: usize = 0;
    // No `for`: the loop ends at the start's stage, and only there the number of steps is known.
    while start.0 < s.0 {
        let before = came_from(ends, via[pair_at(row, s, n)]);
        plan[count] = before.step.0;
        s = before.stage;
        n = before.node;
        count += 1;
    }
    count
}

// Writes the steps that lead from the start to a pair to the front of the plan, and answers how many they are.
pub fn write_plan<'a>(
    via: &'a [u32],
    ends: &'a [u32; 1024],
    row: &'a [u32; 256],
    start: Stage,
    stage: Stage,
    node: Node,
    plan: &mut [u16],
) -> usize
    requires traceable { Traceable via.now (froms ends.now) row.now start.0 stage.0 node.0 }
    requires fits { stage.0 - start.0 ≤ length plan.old }
    ensures { (x : Traceable via.now (froms ends.now) row.now start.0 stage.0 node.0)
        → (result ≡ length x.steps) × (plan.new ≡ x.steps ++ drop result plan.old) }
{
    let length = trace_back(via, ends, row, start, stage, node, plan);
    plan[..length].reverse();
    length
}
