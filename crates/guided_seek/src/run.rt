// The search from a start to an end, over tables that are ready.
ghost use Rattle.checks.specs.Ready.{walked};
ghost use Rattle.guided_loop.specs.Views.{lent_work, SameLent};
ghost use Rattle.guided_seek.specs.Seeks.{Seeking, Sought};

use chart_stages::fill_chart_estimates;
use checks::WalkTables;
use definitions::{NONE, Shape};
use guided_ends::Ended;
use guided_loop::{Slices, search};
use guided_offers::Estimates;

// The chart estimates to the end; then, where the pair of start and root has an estimate, the search.
pub fn seek<'t>(
    slices: &mut Slices<'_>,
    tables: WalkTables<'t>,
    by_node: &'t [u32; 512],
    z: Shape,
) -> Ended
    requires { Seeking z (walked tables) by_node.now (lent_work slices.old) slices.old.log.now }
    ensures same { SameLent slices.old slices.new }
    ensures sought { let before = lent_work slices.old in
        let log = slices.old.log.now in
        Sought z (walked tables.entry).read before log (lent_work slices.new) slices.new.log.now result }
{
    let mut by_stage = [NONE; 256];
    fill_chart_estimates(&mut by_stage, z, tables.steps, tables.first);
    let estimates = Estimates {
        by_stage: &by_stage,
        by_node,
    };
    // None is NONE: the estimates are numbers in tables.
    let rest = estimates.of_pair(z.start, z.root);
    if rest == NONE {
        return Ended {
            goal: None,
            count: 0,
        };
    }
    search(slices, tables, estimates, z, rest)
}
