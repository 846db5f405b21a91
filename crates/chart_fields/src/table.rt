// The table of steps: a column of the kind, the group and both stages of each, in one number, and a column of the costs.
ghost use Rattle.std.specs.Prelude.{◌≡◌, ◌<◌, true, false, get_or};
ghost use Rattle.definitions.specs.Charts.{grouped};
ghost use Rattle.chart_fields.specs.Ends.{ends_of, froms, tos, tags, groups};
ghost use Rattle.chart_fields.specs.Stored.{blank, stored};

use crate::bodies::StepBody;
use crate::ends::{ends_of, from_at, group_at, tag_at, to_at};
use crate::kinds::StepKind;
use definitions::{Group, Stage, Step};

// By step: kind, group and both stages in one number, and the cost.
#[derive(Drop)]
pub struct StepTable {
    pub ends: [u32; 1024],
    pub costs: [u32; 1024],
}

impl StepTable {
    // A table of no steps.
    pub fn blank() -> StepTable
        ensures { result ≡ blank }
    {
        StepTable {
            ends: [0; 1024],
            costs: [0; 1024],
        }
    }

    // Step e gets its entry.
    pub fn put(&mut self, e: usize, step: StepBody)
        requires { (e < 1024) × (step.group < 1024) }
        ensures { self.new ≡ stored self.old e (ends_of step.tag step.group step.from step.to) step.cost }
    {
        self.ends[e] = ends_of(
            step.tag,
            Group(step.group),
            Stage(step.from),
            Stage(step.to),
        );
        self.costs[e] = step.cost;
    }

    // The stage that step e leaves.
    pub fn from(&self, e: Step) -> Stage
        requires { e.0 < 1024 }
        ensures { result.0 ≡ get_or (froms self.now.ends) e.0 0 }
    {
        from_at(&self.ends, e.0 as usize)
    }

    // The stage that step e leads to.
    pub fn to(&self, e: Step) -> Stage
        requires { e.0 < 1024 }
        ensures { result.0 ≡ get_or (tos self.now.ends) e.0 0 }
    {
        to_at(&self.ends, e.0 as usize)
    }

    // The group of step e.
    pub fn group(&self, e: Step) -> Group
        requires { e.0 < 1024 }
        ensures { result.0 ≡ get_or (groups self.now.ends) e.0 0 }
    {
        group_at(&self.ends, e.0 as usize)
    }

    // The cost of step e.
    pub fn cost(&self, e: Step) -> u32
        requires { e.0 < 1024 }
        ensures { result ≡ get_or self.now.costs e.0 0 }
    {
        self.costs[e.0 as usize]
    }

    // Whether the first step names its group, as all then do.
    pub fn is_grouped(&self) -> bool
        ensures named { result ≡ true → get_or (tags self.now.ends) 0 0 ≡ grouped }
        ensures plain { result ≡ false → get_or (tags self.now.ends) 0 0 ≡ grouped → ⊥ }
    {
        tag_at(&self.ends, 0) == StepKind::Grouped.tag()
    }
}
