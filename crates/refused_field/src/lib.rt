// The bytes of a refused field: a part of one of the two files.
#![tactic(auto)]

ghost use Rattle.std.specs.Prelude.{◌≡◌, ◌+◌, ◌-◌, ◌<◌, min, length};
ghost use Rattle.definitions.specs.Fields.{two, field_bytes, refused_field};
ghost use Rattle.refused_field.specs.Lies.{part_at, refused_at};

use field_numbers::read_u16;

// Where the field at a place ends: after its header and its body by its length, at most at the file's end.
fn field_end(s: &[u8], place: usize) -> usize
    requires { place < length s.now }
    ensures { result ≡ place + min (3 + two s.now (place + 1)) (length s.now - place) }
{
    let left = s.len() - place;
    if left < 3 {
        return s.len();
    }
    let len = read_u16(s, place + 1) as usize;
    place + left.min(3 + len)
}

// The bytes of the field at a place of a file; at or past its end an empty part of the chart.
fn part_of<'a>(chart: &'a [u8], s: &'a [u8], place: usize) -> &'a [u8]
    ensures bytes { result.now ≡ field_bytes s.now place }
    ensures lies { result.ref_ptr ≡ part_at chart.entry.ref_ptr s.entry.ref_ptr s.now place }
{
    if place < s.len() {
        let end = field_end(s, place);
        return &s[place..end];
    }
    &chart[..0]
}

// The bytes of the field at a place of the chart (file 1) or of the diagram (file 2). A place at or past the end,
// or another file mark, gives an empty part of the chart. The mark is a number: callers in C hand it on from their answer.
pub fn refused_field<'a>(chart: &'a [u8], rules: &'a [u8], file: u32, place: usize) -> &'a [u8]
    ensures bytes { result.now ≡ refused_field chart.now rules.now file place }
    ensures lies { result.ref_ptr ≡ refused_at chart.entry.ref_ptr rules.entry.ref_ptr chart.now rules.now file place }
{
    match file {
        1 => part_of(chart, chart, place),
        2 => part_of(chart, rules, place),
        _ => &chart[..0],
    }
}
