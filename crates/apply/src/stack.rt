// The stack of a walk over pairs: the pairs whose walks have begun.
ghost use Rattle.std.specs.Prelude.{◌≡◌, ◌+◌, ◌≤◌, ◌<◌};
ghost use Rattle.apply.specs.Views.{Small, Pushes, Pops};
ghost use Rattle.apply.specs.Whole.{empty_stack};

use crate::operands::Pair;
use diagram_fields::{hi_of, lo_of, step_of, word};

// In place of a reference where there is none yet: a frame is one number in the array, packed as an inner node is.
const OPEN: u16 = 512;

// A pair, and the reference of its lo half, none while that half is walked.
#[derive(Clone, Copy)]
pub struct Frame {
    pub pair: Pair,
    pub lo: Option<u16>,
}

// The frames, the last on top. (An array of a fixed length: there is no heap.)
#[derive(Drop)]
pub struct Stack {
    frames: [u32; 1024],
    count: usize,
}

impl Stack {
    // A stack without frames.
    pub fn new() -> Stack
        ensures { result ≡ empty_stack }
    {
        Stack {
            frames: [0; 1024],
            count: 0,
        }
    }

    // A frame on top.
    pub fn push(&mut self, frame: Frame)
        requires { (self.old.count < 1024) × Small frame }
        ensures { Pushes self.old frame self.new }
    {
        self.frames[self.count] = word(
            frame.lo.unwrap_or(OPEN),
            frame.pair.second,
            frame.pair.first,
        );
        self.count += 1;
    }

    // The frame on top, off the stack.
    pub fn pop(&mut self) -> Option<Frame>
        requires { self.old.count ≤ 1024 }
        ensures { Pops self.old result self.new }
    {
        if self.count == 0 {
            return None;
        }
        self.count -= 1;
        let frame = self.frames[self.count];
        let lo = step_of(frame);
        Some(Frame {
            pair: Pair {
                first: hi_of(frame),
                second: lo_of(frame),
            },
            lo: if lo == OPEN { None } else { Some(lo) },
        })
    }
}
