// The walk over pairs, depth first, lo before hi and each pair once. The pairs whose walk has begun stand on a stack.
ghost use Rattle.std.specs.Prelude.{◌+◌};
ghost use Rattle.unique_table.specs.Held.{held, SameArray};
ghost use Rattle.apply.specs.Turns.{Descended, Turned};
ghost use Rattle.apply.specs.Whole.{Walked};
ghost use Rattle.apply.specs.Views.{ReadyFor, DescendingFor, WalkingFor};

use crate::operands::{Operands, Pair};
use crate::stack::{Frame, Stack};
use unique_table::UniqueTable;

// Goes down from a pair along lo, each pair onto the stack, to one that needs no walk. Returns the reference of that one.
fn descend(operands: &Operands, work: &[u32], stack: &mut Stack, pair: Pair) -> u16
    requires { DescendingFor stack.old work.now operands.now pair }
    ensures { (x : DescendingFor stack.old work.now operands.now pair)
        → Descended x stack.new.frames stack.new.count result }
{
    let mut now = pair;
    loop {
        if let Some(reference) = operands.known(work, now) {
            return reference;
        }
        stack.push(Frame {
            pair: now,
            lo: None,
        });
        now = operands.half::<false>(now);
    }
}

// One turn, with the frame from the top of the stack and the reference of the half of its pair that is done: the pair goes on
// to its hi half or, where that is the one, its node is found or made. None where the table has no room for the node.
// (Parameters of their own: of a struct that holds the table by `&mut`, no proof of a call on that table closed.)
fn turn(
    operands: &Operands,
    work: &mut [u32],
    table: &mut UniqueTable,
    stack: &mut Stack,
    frame: Frame,
    done: u16,
) -> Option<u16>
    requires { WalkingFor stack.old frame work.old (held table.old) operands.now done }
    ensures same { SameArray table.old table.new }
    ensures turned { (x : WalkingFor stack.old frame work.old (held table.old) operands.now done)
        → Turned x.0 stack.new.frames work.new (held table.new) stack.new.count result }
{
    let Some(lo) = frame.lo else {
        stack.push(Frame {
            pair: frame.pair,
            lo: Some(done),
        });
        return Some(descend(operands, work, stack, operands.half::<true>(frame.pair)));
    };
    let made = table.intern(operands.top(frame.pair), lo, done)?;
    work[operands.place(frame.pair)] = made as u32;
    Some(made)
}

// The conjunction of two nodes, one of each diagram: its reference in the table, or none where the table would have more than
// 510 nodes. A work entry below 512 is the reference of its pair.
pub fn apply(
    operands: &Operands,
    work: &mut [u32],
    table: &mut UniqueTable,
    pair: Pair,
) -> Option<u16>
    requires { ReadyFor work.old (held table.old) operands.now pair }
    ensures same { SameArray table.old table.new }
    ensures walked { (x : ReadyFor work.old (held table.old) operands.now pair)
        → Walked x work.new (held table.new) result }
{
    let mut stack = Stack::new();
    let mut reference = descend(operands, work, &mut stack, pair);
    while let Some(frame) = stack.pop() {
        reference = turn(operands, work, table, &mut stack, frame, reference)?;
    }
    Some(reference)
}
