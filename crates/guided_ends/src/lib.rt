// How the guided search ended, and the answer to that.
#![tactic(auto)]

ghost use Rattle.chart.specs.Tables.{steps_in};
ghost use Rattle.guided_ends.specs.Ends.{Ending, Concludes};

use chart_fields::StepTable;
use checks::{Refused, accepted};
use definitions::{Answer, Node, Refusal, Shape};
use trace::write_plan;

// The node of a goal pair, and what the way to it costs.
#[derive(Clone, Copy)]
pub struct Goal {
    pub node: Node,
    pub cost: u32,
}

// The goal pair that was settled, if one was, and how many pairs were settled.
#[derive(Clone, Copy)]
pub struct Ended {
    pub goal: Option<Goal>,
    pub count: usize,
}

// The answer by how the search ended; where a goal pair was settled, the trail from the start to it is written as the plan.
pub fn conclude<'a>(
    via: &'a [u32],
    steps: &'a StepTable,
    row: &'a [u32; 256],
    z: Shape,
    ended: Ended,
    plan: &mut [u16],
) -> Answer
    requires { Ending z via.now (steps_in steps.now) row.now ended plan.old }
    ensures { let table = steps_in steps.now in
        Concludes z via.now table row.now ended plan.old plan.new result }
{
    match ended.goal {
        None => Refused::of_call(Refusal::NoLegalPlan).answer(ended.count),
        Some(goal) => {
            let length = write_plan(via, &steps.ends, row, z.start, z.end, goal.node, plan);
            accepted(goal.cost, length, ended.count)
        }
    }
}
