// The chart estimate of each stage from the start on: the least cost of a way from it to the end.
ghost use Rattle.std.specs.Prelude.{◌≡◌, ◌+◌, ◌<◌, min, get_or, replicate};
ghost use Rattle.definitions.specs.Basics.{NONE};
ghost use Rattle.definitions.specs.Plans.{graph};
ghost use Rattle.chart.specs.Tables.{steps_in, chart_in};
ghost use Rattle.chart_stages.specs.Estimates.{WayFrom, EstimateTable};
ghost use Rattle.theory.specs.Least.{Shows};
ghost use Rattle.chart_stages.specs.Leaving.{Staged, Leaving};

use chart_fields::StepTable;
use definitions::{NONE, Shape, Stage, Step};

// The smaller of what is known and the cost through a step to stage `t`. A sum is wider than an estimate, so one with none,
// which is the largest of them, is never the smaller.
fn through(known: usize, estimates: &[u32; 256], t: Stage, cost: u32) -> usize
    requires { t.0 < 256 }
    ensures { result ≡ min known (cost + get_or estimates.now t.0 0) }
{
    let rest = estimates[t.0 as usize] as usize;
    known.min(cost as usize + rest)
}

// The estimate of the stage that the steps from `start` to before `until` leave, by those of the stages after it.
fn least_through<'a>(estimates: &'a [u32; 256], steps: &'a StepTable, start: u16, until: u16) -> u32
    requires { Leaving (steps_in steps.now) start until estimates.now }
    ensures { let t = steps_in steps.now in
        (x : Leaving t start until estimates.now) → Shows (WayFrom (graph (chart_in x.z t)) x.s) result }
{
    let mut best = NONE as usize;
    for e in start..until {
        let step = Step(e);
        best = through(best, estimates, steps.to(step), steps.cost(step));
    }
    best as u32
}

// Fills the estimates by stage, none at first, from the end stage backwards to the start. No pair of a stage before the start
// is ever asked for.
pub fn fill_chart_estimates<'a>(
    estimates: &mut [u32; 256],
    z: Shape,
    steps: &'a StepTable,
    first: &'a [u16; 257],
)
    requires none_yet { estimates.old ≡ replicate 256 NONE }
    requires staged { Staged z (steps_in steps.now) first.now }
    ensures { EstimateTable (chart_in z (steps_in steps.now)) estimates.new }
{
    let start = z.start.0 as usize;
    let end = z.end.0 as usize;
    estimates[end] = 0;
    for s in (start..end).rev() {
        estimates[s] = least_through(estimates, steps, first[s], first[s + 1]);
    }
}
