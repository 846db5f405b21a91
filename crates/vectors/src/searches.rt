// The searches over slices that are full of one number: what they answer, what they write, and which entries they have
// changed that should stay.
use crate::lend::lend;
use crate::show::{show_changed, show_costs, show_entries, show_outcome};
use definitions::Answer;
use script_files::read::SearchSlices;
use std::io;

// The longest slices: a few entries more than any files need.
const MOST: usize = 131080;

const MOST_STEPS: usize = 260;

// How many entries of each work slice are the search's own: none where it is refused before it begins.
fn own(chart: &[u8], rules: &[u8], number: u32) -> usize {
    match number {
        0 | 8 => match space::space_needed(chart, rules) {
            Ok(needed) => needed.work,
            Err(_) => 0,
        },
        _ => 0,
    }
}

// An answer and the plan. Where the plan is free neither its length nor its steps are shown.
fn show_answer(rt: &impl Print, a: Answer, plan: &[u16; MOST_STEPS], free: bool) -> io::Result<()> {
    show_outcome(rt, a)?;
    if !free {
        print!(rt; " length {} steps", a.length)?;
        show_entries(rt, &plan[..a.length.min(MOST_STEPS)])?;
    }
    Ok(())
}

// The pairs that were settled and the log. Where the plan is free both are free too, and not shown.
fn show_log(rt: &impl Print, a: Answer, log: &[u32; MOST], free: bool) -> io::Result<()> {
    if !free {
        print!(rt; " count {} log", a.count)?;
        show_entries(rt, &log[..a.count.min(MOST)])?;
    }
    Ok(())
}

// The sweep: its answer and its cost slice, and which entries past the plan and past the search's own have changed.
#[inline(never)]
pub fn show_sweep(
    rt: &impl Print,
    chart: &[u8],
    rules: &[u8],
    lent: SearchSlices,
) -> io::Result<()> {
    let full = lent.full;
    let mut cost = [full; MOST];
    let mut via = [full; MOST];
    let mut nodes = [full; MOST];
    let mut plan = [lent.full_step(); MOST_STEPS];
    let a = sweep::sweep(
        chart,
        rules,
        lend(&mut cost, lent.entries(1)),
        lend(&mut via, lent.entries(2)),
        lend(&mut nodes, lent.entries(3)),
        lend(&mut plan, lent.plan),
    );
    let pairs = own(chart, rules, a.number);
    show_answer(rt, a, &plan, lent.free)?;
    print!(rt; " count {} costs", a.count)?;
    show_costs(rt, &cost[..pairs.min(MOST)])?;
    print!(rt; " changed")?;
    show_changed(rt, &plan, a.length, lent.full_step())?;
    for slice in [&cost, &via, &nodes] {
        show_changed(rt, slice, pairs, full)?;
    }
    Ok(())
}

// The guided search: its answer and its log, and which entries past the plan, past the log and past the search's own have
// changed.
#[inline(never)]
pub fn show_guided(
    rt: &impl Print,
    chart: &[u8],
    rules: &[u8],
    lent: SearchSlices,
) -> io::Result<()> {
    let full = lent.full;
    let mut keys = [full; MOST];
    let mut via = [full; MOST];
    let mut heap = [full; MOST];
    let mut pos = [full; MOST];
    let mut stack = [full; MOST];
    let mut log = [full; MOST];
    let mut plan = [lent.full_step(); MOST_STEPS];
    let a = guided::guided(
        chart,
        rules,
        lend(&mut keys, lent.entries(1)),
        lend(&mut via, lent.entries(2)),
        lend(&mut heap, lent.entries(3)),
        lend(&mut pos, lent.entries(4)),
        lend(&mut stack, lent.entries(5)),
        lend(&mut log, lent.entries(6)),
        lend(&mut plan, lent.plan),
    );
    let pairs = own(chart, rules, a.number);
    show_answer(rt, a, &plan, lent.free)?;
    show_log(rt, a, &log, lent.free)?;
    print!(rt; " changed")?;
    show_changed(rt, &plan, a.length, lent.full_step())?;
    show_changed(rt, &log, a.count, full)?;
    for slice in [&keys, &via, &heap, &pos, &stack] {
        show_changed(rt, slice, pairs, full)?;
    }
    Ok(())
}
