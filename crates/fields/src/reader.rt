// A reader of tagged fields: a file and a cursor. It is made, moved on to a place, and asked for the next field.
// The functions here are thin: the work is done by `next_field`, which takes a plain slice.
ghost use Rattle.std.specs.Prelude.{◌≡◌};
ghost use Rattle.definitions.specs.Fields.{only, or_remark, field_at};

use crate::look::next_field;
use definitions::Field;

// A file, and the place of its next field.
#[derive(Clone, Copy)]
pub struct Reader<'a> {
    pub src: &'a [u8],
    pub at: usize,
}

impl<'a> Reader<'a> {
    // At the file's start.
    pub fn new(src: &'a [u8]) -> Reader<'a>
        ensures { (result.src ≡ src.entry) × (result.at ≡ 0) }
    {
        Reader { src, at: 0 }
    }

    // Moved on to a place of the same file.
    pub fn moved(self, at: usize) -> Reader<'a>
        ensures { (result.src ≡ self.entry.src) × (result.at ≡ at) }
    {
        Reader { src: self.src, at }
    }

    // The next field: a remark, or one of this tag and length, which is due, or what is wrong there.
    pub fn next(self, tag: u8, len: u16) -> Field
        ensures { result ≡ field_at self.entry.src.now self.entry.at (or_remark (only tag len)) }
    {
        next_field(self.src, self.at, tag, len)
    }
}
