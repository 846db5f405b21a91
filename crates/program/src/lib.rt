// What the program writes for the bytes of both files, with no input or output.
#![tactic(auto)]

ghost use Rattle.std.specs.Prelude.{◌+◌, ◌*◌, ◌≤◌, length};
ghost use Rattle.report.specs.Text.{report as text_of};
ghost use Rattle.buffer.specs.Appending.{Appended};
ghost use Rattle.program.specs.Written.{Written};

use planner::Answers;

// Writes the text of both answers to the front of `out`. However large the numbers, the text has at most 11 bytes for
// each entry of the plan slice and 74 more.
fn write_answers(both: Answers, plan: &[u16], out: &mut [u8]) -> usize
    ensures appended { Appended out.old 0 (text_of both.guided plan.now both.sweep) out.new result }
    ensures short { length (text_of both.guided plan.now both.sweep) ≤ 74 + 11 * length plan.now }
{
    report::write_report(out, both.guided, plan, both.sweep)
}

// Plans for the bytes of both files with work for 4,096 pairs and 255 plan entries, and writes the program's text to the
// front of `out`; returns the text's length.
pub fn write_text(chart: &[u8], rules: &[u8], out: &mut [u8]) -> usize
    ensures { Written chart.now rules.now out.old out.new result }
{
    let mut cost = [0u32; 4096];
    let mut cost_via = [0u32; 4096];
    let mut nodes = [0u32; 4096];
    let mut cost_plan = [0u16; 255];
    let mut keys = [0u32; 4096];
    let mut via = [0u32; 4096];
    let mut heap = [0u32; 4096];
    let mut pos = [0u32; 4096];
    let mut stack = [0u32; 4096];
    let mut log = [0u32; 4096];
    let mut plan = [0u16; 255];
    let both = planner::both(
        chart,
        rules,
        &mut cost,
        &mut cost_via,
        &mut nodes,
        &mut cost_plan,
        &mut keys,
        &mut via,
        &mut heap,
        &mut pos,
        &mut stack,
        &mut log,
        &mut plan,
    );
    write_answers(both, &plan, out)
}
