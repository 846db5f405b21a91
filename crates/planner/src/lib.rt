// Both searches on the same files, in one call.
#![tactic(auto)]

ghost use Rattle.definitions.specs.Promises.{sweep_slices, guided_slices};
ghost use Rattle.planner.specs.Both.{BothCall};

use definitions::Answer;

// The answers of both searches.
#[derive(Clone, Copy)]
pub struct Answers {
    pub sweep: Answer,
    pub guided: Answer,
}

// Runs the sweep on `cost`, `cost_via`, `nodes` and `cost_plan`, and the guided search on the other slices. Where all
// checks pass for both they agree: both give a legal plan or both give 8, at equal cost, and the guided search settles
// no more pairs than the sweep reaches. Kept as single slices: a caller in C lends them so.
pub fn both(
    chart: &[u8],
    rules: &[u8],
    cost: &mut [u32],
    cost_via: &mut [u32],
    nodes: &mut [u32],
    cost_plan: &mut [u16],
    keys: &mut [u32],
    via: &mut [u32],
    heap: &mut [u32],
    pos: &mut [u32],
    stack: &mut [u32],
    log: &mut [u32],
    plan: &mut [u16],
) -> Answers
    ensures { let lent = sweep_slices cost.old cost_via.old nodes.old cost_plan.old in
        let lent' = sweep_slices cost.new cost_via.new nodes.new cost_plan.new in
        let given = guided_slices keys.old via.old heap.old pos.old
        stack.old log.old plan.old in
        let given' = guided_slices keys.new via.new heap.new pos.new
        stack.new log.new plan.new in
        BothCall chart.now rules.now lent lent' given given' result }
{
    let swept = sweep::sweep(chart, rules, cost, cost_via, nodes, cost_plan);
    let found = guided::guided(chart, rules, keys, via, heap, pos, stack, log, plan);
    Answers {
        sweep: swept,
        guided: found,
    }
}
