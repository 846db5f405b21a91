// The answer by the finished tables, and the plan.
ghost use Rattle.std.specs.Prelude.{◌-◌, ◌≤◌, length};
ghost use Rattle.sweep_offers.specs.Offers.{held};
ghost use Rattle.checks.specs.Ready.{walked};
ghost use Rattle.sweep.specs.Runs.{Final, Concludes};

use checks::{Refused, WalkTables, accepted};
use definitions::{Answer, Refusal, Shape};
use nodes::fill_finishing;
use sweep_ends::{cheapest_goal, total_count};
use sweep_offers::Rows;
use trace::write_plan;

// The answer; a plan is written where there is one.
pub fn conclude(rows: &Rows<'_>, tables: WalkTables<'_>, z: Shape, plan: &mut [u16]) -> Answer
    requires done { Final z (walked tables).read tables.row.now (held rows.now) }
    requires plan_fits { z.stages - 1 ≤ length plan.old }
    ensures { Concludes z (walked tables.entry).read plan.old plan.new result }
{
    let count = total_count(&rows.counts, z.stages as usize);
    let mut yes = [false; 512];
    fill_finishing(&mut yes, tables.inner, z.nodes);
    let end = z.end.0 as usize;
    let base = tables.row[end] as usize;
    let listed = rows.counts[end] as usize;
    match cheapest_goal(rows.costs, rows.nodes, &yes, base, listed) {
        None => Refused::of_call(Refusal::NoLegalPlan).answer(count),
        Some(best) => {
            let length = write_plan(
                rows.via,
                &tables.steps.ends,
                tables.row,
                z.start,
                z.end,
                best.node,
                plan,
            );
            accepted(best.cost, length, count)
        },
    }
}
