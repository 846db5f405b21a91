// A file that a call writes into a lent buffer: what is shown of it.
use crate::show::{show_changed, show_hexadecimal, show_outcome};
use definitions::Answer;
use std::io;

// The longest buffer: a few bytes more than any file needs.
pub const MOST_BYTES: usize = 4600;

// An answer, the file, and which bytes past it have changed.
pub fn show_written(
    rt: &impl Print,
    a: Answer,
    file: &[u8; MOST_BYTES],
    full: u8,
) -> io::Result<()> {
    show_outcome(rt, a)?;
    print!(rt; " length {} count {} bytes", a.length, a.count)?;
    show_hexadecimal(rt, &file[..a.length.min(MOST_BYTES)])?;
    print!(rt; " changed")?;
    show_changed(rt, file, a.length, full)
}
