// The checks, and the tables that they fill.
ghost use Rattle.std.specs.Prelude.{[], ◌∷◌};
ghost use Rattle.definitions.specs.Answers.{load as outcome};
ghost use Rattle.checks.specs.Tables.{Room, read, LoadsAs};

use crate::answers::{InFile, Refused, in_file};
use chart::read_chart;
use chart_fields::StepTable;
use definitions::{Node, Refusal, Shape, Stage};
use diagram::read_diagram;

// Reads both files into tables and compares what is lent with what is needed: `work` entries in the shortest work slice,
// `plan` entries in the plan slice. Two tables, and no struct of both: each file is read into its own.
pub fn load(
    chart: &[u8],
    rules: &[u8],
    work: usize,
    plan: usize,
    steps: &mut StepTable,
    inner: &mut [u32; 512],
) -> Result<Shape, Refused>
    requires { Room steps.old inner.old }
    ensures { let o = outcome chart.now rules.now (work ∷ []) plan in
        LoadsAs o (read steps.new inner.new) result }
{
    let c = in_file(read_chart(chart, steps), InFile::Chart)?;
    let d = in_file(read_diagram(rules, c.groups, true, inner), InFile::Rules)?;
    let stages = c.stages as usize;
    if work < stages * (d.nodes + 2) {
        return Err(Refused::of_call(Refusal::ShortSlice));
    }
    if plan < stages - 1 {
        return Err(Refused::of_call(Refusal::ShortSlice));
    }
    Ok(Shape {
        stages: c.stages,
        start: Stage(c.start),
        end: Stage(c.end),
        steps: c.steps,
        root: Node(d.root),
        nodes: d.nodes,
    })
}
