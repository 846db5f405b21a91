// The conjunction of two diagrams, over slices that are full of one number each: what the call answers, the file that it
// writes, and which entries it has changed that should stay.
ghost use Rattle.std.specs.Prelude.{◌≤◌};

use crate::lend::lend;
use crate::show::show_changed;
use crate::written::{MOST_BYTES, show_written};
use chart_fields::StepTable;
use script_files::read::JoinSlices;
use std::io;

// The longest work slice: a few entries more than any files need.
const MOST: usize = 262152;

// How many nodes a diagram over so many groups has, 0 and 1 included.
fn references(file: &[u8], groups: usize) -> usize
    ensures { result ≤ 513 }
{
    let mut table = [0u32; 512];
    let sizes = match diagram::read_diagram(file, groups.min(1024), true, &mut table) {
        Ok(sizes) => sizes,
        Err(stopped) => stopped.passed,
    };
    sizes.nodes % 512 + 2
}

// How many pairs of nodes two diagrams have.
fn pairs(chart: &[u8], rules: &[u8], more: &[u8]) -> usize {
    let mut table = StepTable::blank();
    let sizes = match chart::read_chart(chart, &mut table) {
        Ok(sizes) => sizes,
        Err(stopped) => stopped.passed,
    };
    references(rules, sizes.groups) * references(more, sizes.groups)
}

// How many entries of the work slice are the call's own: none where it is refused before it begins. 7 is the buffer's where
// there are enough of them.
fn own(number: u32, pairs: usize, lent: usize) -> usize {
    match number {
        0 | 7 | 12 if pairs <= lent => pairs,
        _ => 0,
    }
}

// The conjunction.
#[inline(never)]
pub fn show_join(
    rt: &impl Print,
    chart: &[u8],
    rules: &[u8],
    more: &[u8],
    lent: JoinSlices,
) -> io::Result<()> {
    let mut work = [lent.full; MOST];
    let mut file = [lent.full_byte; MOST_BYTES];
    let a = conjoin::conjoin(
        chart,
        rules,
        more,
        lend(&mut work, lent.work),
        lend(&mut file, lent.file),
    );
    show_written(rt, a, &file, lent.full_byte)?;
    let first = own(a.number, pairs(chart, rules, more), lent.work);
    show_changed(rt, &work, first, lent.full)
}
