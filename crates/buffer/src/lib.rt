// Bytes copied into a lent buffer, behind what stands there. Where the buffer is too short they are cut at its end.
#![tactic(auto)]

ghost use Rattle.std.specs.Prelude.{◌≤◌, length};
ghost use Rattle.buffer.specs.Writing.{Wrote};

// A lent buffer and the place in it where the next byte goes.
#[derive(Drop)]
pub struct Writer<'a> {
    pub out: &'a mut [u8],
    pub at: usize,
}

impl<'a> Writer<'a> {
    // Copies bytes into the buffer from the place on, as far as there is room, and goes on behind them. One by one: a copy of the
    // whole is a call of `memcpy`, which the library for C does not ask for.
    pub fn copy(&mut self, bytes: &[u8])
        requires { self.old.at ≤ length self.old.out.now }
        ensures { Wrote self.old bytes.now self.new }
    {
        let count = bytes.len().min(self.out.len() - self.at);
        for i in 0..count {
            self.out[self.at + i] = bytes[i];
        }
        self.at += count;
    }
}
