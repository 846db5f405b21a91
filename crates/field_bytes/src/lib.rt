// Numbers and headers of tagged fields, written into a lent buffer behind what stands there. The caller tests first that there is room.
#![tactic(auto)]

ghost use Rattle.std.specs.Prelude.{[], ◌∷◌, ◌+◌, ◌*◌, ◌≤◌, ◌<◌, length};
ghost use Rattle.definitions.specs.Basics.{each};
ghost use Rattle.definitions.specs.Bytes.{le2, le4, header};
ghost use Rattle.buffer.specs.Writing.{Wrote};

use buffer::Writer;

// A byte.
pub fn write_u8(w: &mut Writer, n: u8)
    requires { w.old.at < length w.old.out.now }
    ensures { Wrote w.old (n ∷ []) w.new }
{
    w.out[w.at] = n;
    w.at += 1;
}

// A number in two bytes, low byte first.
pub fn write_u16(w: &mut Writer, n: u16)
    requires { w.old.at + 2 ≤ length w.old.out.now }
    ensures { Wrote w.old (le2 n) w.new }
{
    let bytes = n.to_le_bytes();
    write_u8(w, bytes[0]);
    write_u8(w, bytes[1]);
}

// A number in four bytes, low byte first.
pub fn write_u32(w: &mut Writer, value: u32)
    requires { w.old.at + 4 ≤ length w.old.out.now }
    ensures { Wrote w.old (le4 value) w.new }
{
    write_u16(w, (value % 65536) as u16);
    write_u16(w, (value / 65536) as u16);
}

// Numbers in two bytes each.
pub fn write_numbers(w: &mut Writer, numbers: &[u16])
    requires { w.old.at + 2 * length numbers.now ≤ length w.old.out.now }
    ensures { Wrote w.old (each le2 numbers.now) w.new }
{
    for n in numbers {
        write_u16(w, *n);
    }
}

// A field's tag and the length of its body.
pub fn write_header(w: &mut Writer, tag: u8, len: u16)
    requires { w.old.at + 3 ≤ length w.old.out.now }
    ensures { Wrote w.old (header tag len) w.new }
{
    write_u8(w, tag);
    write_u16(w, len);
}
