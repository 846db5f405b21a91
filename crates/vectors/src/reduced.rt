// The reduction of a diagram, into a buffer that is full of one byte: what the call answers, the file that it writes, and
// which bytes it has changed that should stay.
use crate::lend::lend;
use crate::written::{MOST_BYTES, show_written};
use std::io;

// The reduction, into so many bytes of the buffer.
#[inline(never)]
pub fn show_reduced(
    rt: &impl Print,
    chart: &[u8],
    rules: &[u8],
    bytes: usize,
    full: u8,
) -> io::Result<()> {
    let mut file = [full; MOST_BYTES];
    let a = reduce::reduce(chart, rules, lend(&mut file, bytes));
    show_written(rt, a, &file, full)
}
