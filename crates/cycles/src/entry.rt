// One entry of a list: a guided search from its start to its end.
ghost use Rattle.checks.specs.Ready.{walked};
ghost use Rattle.guided_loop.specs.Views.{SameLent};
ghost use Rattle.cycles.specs.Cycles.{lent, Asking, Answered};

use checks::WalkTables;
use definitions::{Cycle, Refusal, Shape, Stage};
use guided_loop::Slices;
use guided_seek::seek;

// An entry with its answer: a refusal's number where its start or end is no stage of the chart, else that of a search over the
// list's tables, with this start and end.
pub fn answered<'t>(
    c: Cycle,
    slices: &mut Slices<'_>,
    tables: WalkTables<'t>,
    by_node: &'t [u32; 512],
    z: Shape,
) -> Cycle
    requires { Asking z (walked tables) by_node.now (lent slices.old) }
    ensures same { SameLent slices.old slices.new }
    ensures answered { Answered z (walked tables.entry).read (lent slices.old) (lent slices.new) c result }
{
    if z.stages <= c.start || z.stages <= c.end {
        return Cycle {
            number: Refusal::HeadLimit.number() as u32,
            cost: 0,
            count: 0,
            ..c
        };
    }
    let between = Shape {
        start: Stage(c.start),
        end: Stage(c.end),
        ..z
    };
    let ended = seek(slices, tables, by_node, between);
    let searched = Cycle {
        number: 0,
        cost: 0,
        count: ended.count,
        ..c
    };
    match ended.goal {
        Some(goal) => Cycle {
            cost: goal.cost,
            ..searched
        },
        None => Cycle {
            number: Refusal::NoLegalPlan.number() as u32,
            ..searched
        },
    }
}
