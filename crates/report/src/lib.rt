// The text that the program writes, put into a buffer. Where the buffer is too short the text is cut at the buffer's end.
// It is put together by hand: `write!` into a slice fails there.
#![tactic(auto)]

ghost use Rattle.std.specs.Prelude.{◌≤◌, length, take};
ghost use Rattle.report.specs.Text.{item, last_item, step_word, step_lines, plan_text, refused_text, report};
ghost use Rattle.buffer.specs.Appending.{Appended};
ghost use Rattle.buffer.specs.Writing.{Wrote};

use buffer::Writer;
use definitions::Answer;
use digits::write_number;

// Writes a word and a number.
fn write_item(w: &mut Writer, word: &[u8], n: usize)
    requires { w.old.at ≤ length w.old.out.now }
    ensures { Wrote w.old (item word.now n) w.new }
{
    w.copy(word);
    write_number(w, n);
}

// Writes a word and a number at the end of a line.
fn write_last_item(w: &mut Writer, word: &[u8], n: usize)
    requires { w.old.at ≤ length w.old.out.now }
    ensures { Wrote w.old (last_item word.now n) w.new }
{
    write_item(w, word, n);
    w.copy(b"\n");
}

// Writes a line for each step.
fn write_steps(w: &mut Writer, steps: &[u16])
    requires { w.old.at ≤ length w.old.out.now }
    ensures { Wrote w.old (step_lines steps.now) w.new }
{
    for step in steps {
        write_last_item(w, b"step ", *step as usize);
    }
}

// Writes the lines of a plan: its cost, its steps, and the counts of both searches.
fn write_plan(w: &mut Writer, cost: u32, steps: &[u16], settled: usize, reached: usize)
    requires { w.old.at ≤ length w.old.out.now }
    ensures { Wrote w.old (plan_text cost steps.now settled reached) w.new }
{
    write_last_item(w, b"cost ", cost as usize);
    write_steps(w, steps);
    write_item(w, b"settled ", settled);
    write_last_item(w, b" reached ", reached);
}

// Writes the line of a refusal.
fn write_refused(w: &mut Writer, number: u32, file: u32, place: usize)
    requires { w.old.at ≤ length w.old.out.now }
    ensures { Wrote w.old (refused_text number file place) w.new }
{
    write_item(w, b"refused ", number as usize);
    write_item(w, b" file ", file as usize);
    write_last_item(w, b" place ", place);
}

// Writes the text for both searches' answers.
fn write_answers(w: &mut Writer, guided: Answer, plan: &[u16], sweep: Answer)
    requires { w.old.at ≤ length w.old.out.now }
    ensures { Wrote w.old (report guided plan.now sweep) w.new }
{
    // An answer is numbers: C has the same.
    if guided.number != 0 {
        return write_refused(w, guided.number, guided.file, guided.place);
    }
    let steps = &plan[..guided.length.min(plan.len())];
    write_plan(w, guided.cost, steps, guided.count, sweep.count);
}

// Writes that text to the front of the buffer, and returns its length.
pub fn write_report(out: &mut [u8], guided: Answer, plan: &[u16], sweep: Answer) -> usize
    ensures { Appended out.old 0 (report guided plan.now sweep) out.new result }
{
    let mut w = Writer { out, at: 0 };
    write_answers(&mut w, guided, plan, sweep);
    w.at
}
