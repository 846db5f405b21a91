// What the calls for C and Rust store in the arrays and the buffer that their callers lend: an answer, both searches' answers, the space needed, a refused field.
#![tactic(auto)]

ghost use Rattle.std.specs.Prelude.{◌≡◌, min, length};
ghost use Rattle.buffer.specs.Appending.{Appended};
ghost use Rattle.answer_arrays.specs.Numbers.{numbers, space_numbers};

use buffer::Writer;
use definitions::Answer;
use space::Needed;

// Stores an answer (number, file, place, cost, length, count) and returns its number. Not an `impl From`: neither type is this crate's.
pub fn store(a: Answer, array: &mut [usize; 6]) -> u32
    ensures { (result ≡ a.number) × (array.new ≡ numbers a) }
{
    let number = a.number as usize;
    let file = a.file as usize;
    let cost = a.cost as usize;
    *array = [number, file, a.place, cost, a.length, a.count];
    a.number
}

// Stores the answers of the sweep and of the guided search, each in its array, and returns the guided search's number.
pub fn store_both(
    swept: Answer,
    found: Answer,
    sweep_array: &mut [usize; 6],
    guided_array: &mut [usize; 6],
) -> u32
    ensures { (result ≡ found.number) × (sweep_array.new ≡ numbers swept) × (guided_array.new ≡ numbers found) }
{
    store(swept, sweep_array);
    store(found, guided_array)
}

// Stores the space needed (number, file, place, work, plan) and returns its number.
pub fn store_space(s: Needed, array: &mut [usize; 5]) -> u32
    ensures { (result ≡ s.number) × (array.new ≡ space_numbers s) }
{
    let number = s.number as usize;
    let file = s.file as usize;
    *array = [number, file, s.place, s.work, s.plan];
    s.number
}

// Copies a field to the front of a buffer as far as there is room, and returns how many bytes the field has.
pub fn store_field(bytes: &[u8], buffer: &mut [u8]) -> usize
    ensures { let before = buffer.old in
        let field = bytes.now in
        (result ≡ length field) × Appended before 0 field buffer.new (min result (length before)) }
{
    let mut front = Writer { out: buffer, at: 0 };
    front.copy(bytes);
    bytes.len()
}
