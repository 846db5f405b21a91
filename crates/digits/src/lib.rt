// The decimal digits of a number, appended to what stands in a lent buffer.
#![tactic(auto)]

ghost use Rattle.std.specs.Prelude.{◌≤◌, length};
ghost use Rattle.buffer.specs.Writing.{Wrote};
ghost use Rattle.digits.specs.Decimal.{decimal};

use buffer::Writer;

// Writes a number's decimal digits. By hand: they are cut at the buffer's end, where `write!` into a slice fails.
pub fn write_number(w: &mut Writer, n: usize)
    requires { w.old.at ≤ length w.old.out.now }
    ensures { Wrote w.old (decimal n) w.new }
{
    let mut digits = [0u8; 20];
    let mut first: usize = 20;
    let mut left = n;
    while 10 <= left {
        first -= 1;
        digits[first] = b'0' + (left % 10) as u8;
        left /= 10;
    }
    first -= 1;
    digits[first] = b'0' + left as u8;
    w.copy(&digits[first..]);
}
