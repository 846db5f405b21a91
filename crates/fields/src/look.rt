// What stands at a place of a file, by functions over plain slices and numbers.
ghost use Rattle.std.specs.Prelude.{◌≡◌, true, ℕ, ◌+◌, ◌*◌, ◌<◌, ◌^◌, length, get_or};
ghost use Rattle.definitions.specs.Fields.{two, Kind, only, or_remark, field_at, first_field};
ghost use Rattle.definitions.specs.declared.Field.TheVariants.{Faulty, Whole};
ghost use Rattle.fields.specs.Positions.{HasField, Tells};
ghost use Rattle.fields.specs.Remarks.{remark_at};

use definitions::{Field, Refusal};
use field_numbers::read_u16;

// The longest file that is read, in bytes.
const LONGEST: usize = 32768;

// The first tag of remarks; they have all tags from there on.
const REMARK: u8 = 128;

// ---- at one place

// A field's tag and length as one number.
fn header(s: &[u8], at: usize) -> u32
    requires { at + 2 < length s.now }
    ensures { result ≡ get_or s.now at 0 + 256 * two s.now (at + 1) }
{
    u32::from(s[at]) + 256 * u32::from(read_u16(s, at + 1))
}

// Whether a whole field of this tag and length stands at a place: one test for its end, one for its header.
pub fn is_whole(s: &[u8], at: usize, tag: u8, len: u16) -> bool
    ensures { Tells result s.now at tag len }
{
    let field = 3 + usize::from(len);
    field <= s.len()
        && at <= s.len() - field
        && header(s, at) == u32::from(tag) + 256 * u32::from(len)
}

fn faulty(refusal: Refusal, place: usize) -> Field
    ensures { result ≡ Faulty refusal place }
{
    Field::Faulty { refusal, place }
}

// A whole field of this length.
fn whole(at: usize, len: u16) -> Field
    requires { at + (3 + len) < 2 ^ 64 }
    ensures { result ≡ Whole at (at + 3) (at + 3 + len) }
{
    Field::Whole {
        place: at,
        start: at + 3,
        end: at + 3 + usize::from(len),
    }
}

// What is wrong at a place where no whole field of this tag and length stands. In this order: header cut (1), tag (2),
// length (3), body cut (1).
fn fault_at(s: &[u8], at: usize, tag: u8, len: u16) -> Field
    requires { HasField s.now at tag len → ⊥ }
    ensures { result ≡ field_at s.now at (only tag len) }
{
    if s.len() <= at {
        return Field::Absent;
    }
    if s.len() - at < 3 {
        return faulty(Refusal::Cut, at);
    }
    if s[at] != tag {
        return faulty(Refusal::Tag, at);
    }
    if read_u16(s, at + 1) != len {
        return faulty(Refusal::Length, at);
    }
    faulty(Refusal::Cut, at)
}

// What stands at a place where only a field of this tag and length is due.
fn field_at(s: &[u8], at: usize, tag: u8, len: u16) -> Field
    ensures { result ≡ field_at s.now at (only tag len) }
{
    if is_whole(s, at, tag, len) {
        return whole(at, len);
    }
    fault_at(s, at, tag, len)
}

// The first field of a file, where one of this tag and length is due. Ahead of it, a file that is too long is 9.
pub fn first_field(s: &[u8], tag: u8, len: u16) -> Field
    ensures { result ≡ first_field s.now (only tag len) }
{
    if LONGEST < s.len() {
        return faulty(Refusal::LongFile, LONGEST);
    }
    field_at(s, 0, tag, len)
}

// ---- after the head

// Whether the header of a remark stands at a place.
#[tactic(auto, unfolding(crate::specs::Remarks::remark_at))]
fn is_remark(s: &[u8], at: usize) -> bool
    ensures { result ≡ remark_at s.now at }
{
    3 <= s.len().saturating_sub(at) && REMARK <= s[at]
}

// The remark whose header stands at a place: it is passed over, or its body is cut (1), whatever the other tags mean there.
fn remark_at(s: &[u8], at: usize) -> Field
    requires { remark_at s.now at ≡ true }
    ensures { (kind : ℕ → Kind) → result ≡ field_at s.now at (or_remark kind) }
{
    let field = 3 + usize::from(read_u16(s, at + 1));
    if s.len() - at < field {
        return faulty(Refusal::Cut, at);
    }
    Field::Passed { end: at + field }
}

// What stands at a place after the head, where remarks are passed over and else only a field of this tag and length is due.
pub fn next_field(s: &[u8], at: usize, tag: u8, len: u16) -> Field
    ensures { result ≡ field_at s.now at (or_remark (only tag len)) }
{
    if is_remark(s, at) {
        return remark_at(s, at);
    }
    field_at(s, at, tag, len)
}
