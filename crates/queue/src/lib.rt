// The open pairs of a best-first search, smallest key first: a min-heap with a stack before it. A pair that is inserted at the
// key just taken goes on the stack and is taken before all others, last in first out. The slices keys, heap, pos and stack are
// lent with any content. The pairs are 0 to p - 1, for any p that fits the slices: no call reads it, and nothing from p on is
// touched. `floor` is the key last taken, or any number before the first.
#![tactic(auto)]

ghost use Rattle.std.specs.Prelude.{ℕ, ◌<◌, ◌≡◌, List};
ghost use Rattle.queue.specs.declared.Counts.{Counts};
ghost use Rattle.queue.specs.Queue.{held, state, Queue as Ordered, Empty, Inserting, Inserted, Decreasing, Decreased, Taken};
ghost use Rattle.queue.specs.Views.{counts_of, state_with, state_of, IsQueue, SameSlices, Takes};

// How many pairs of the queue are in the heap, and how many are on the stack.
#[derive(Clone, Copy)]
pub struct Counts {
    pub heaped: usize,
    pub top: usize,
}

// The pair taken, its key, and the counts after that.
#[derive(Clone, Copy)]
pub struct Next {
    pub pair: usize,
    pub key: u32,
    pub counts: Counts,
}

// The counts of a queue that holds nothing.
pub fn empty() -> Counts
    ensures { Empty result }
{
    Counts { heaped: 0, top: 0 }
}

// Puts pair q, which is not in the queue, into it at the key v, at least floor.
pub fn insert(
    keys: &mut [u32],
    heap: &mut [u32],
    pos: &mut [u32],
    stack: &mut [u32],
    counts: Counts,
    floor: u32,
    q: usize,
    v: u32,
) -> Counts
    requires { Inserting floor q v (state keys.old heap.old pos.old stack.old counts) }
    ensures { let before = state keys.old heap.old pos.old stack.old counts in
        let after = state keys.new heap.new pos.new stack.new result in
        (x : Inserting floor q v before) → Inserted x.p floor q v before after }
{
    let heaped = counts.heaped;
    let top = counts.top;
    if v == floor {
        keys[q] = v;
        stack[top] = q as u32;
        return Counts {
            heaped,
            top: top + 1,
        };
    }
    heap::push(keys, heap, pos, heaped, q, v);
    Counts {
        heaped: heaped + 1,
        top,
    }
}

// Gives pair q, which is in the queue, the key v, below the one that it has and at least the floor. The counts and the stack,
// whatever they are, stay.
pub fn decrease(keys: &mut [u32], heap: &mut [u32], pos: &mut [u32], q: usize, v: u32)
    requires { (stack : List ℕ) × (counts : Counts) × Decreasing q v (state keys.old heap.old pos.old stack counts) }
    ensures { (stack : List ℕ) (counts : Counts) →
        let before = state keys.old heap.old pos.old stack counts in
        let after = state keys.new heap.new pos.new stack counts in
        (x : Decreasing q v before) → Decreased x.p x.floor q v before after }
{
    heap::decrease_key(keys, heap, pos, q, v);
}

// Takes a pair with the least key out of the queue: the last one on the stack, if there is one.
pub fn take(
    keys: &[u32],
    heap: &mut [u32],
    pos: &mut [u32],
    stack: &[u32],
    counts: Counts,
    floor: u32,
) -> Next
    requires { (p : ℕ) × Ordered p floor (state keys.now heap.old pos.old stack.now counts) × (0 < held counts) }
    ensures { let before = state keys.now heap.old pos.old stack.now counts in
        let after = state keys.now heap.new pos.new stack.now result.counts in
        (p : ℕ) → Ordered p floor before → Taken p floor result.pair result.key before after }
{
    let heaped = counts.heaped;
    let top = counts.top;
    if 0 < top {
        let q = stack[top - 1] as usize;
        let left = Counts {
            heaped,
            top: top - 1,
        };
        return Next {
            pair: q,
            key: floor,
            counts: left,
        };
    }
    let q = heap::pop_min(keys, heap, pos, heaped);
    let v = keys[q];
    let left = Counts {
        heaped: heaped - 1,
        top,
    };
    Next {
        pair: q,
        key: v,
        counts: left,
    }
}

// The four slices and the counts, both 0 in a queue that holds nothing. The heap's slices stand here themselves: of a struct
// within this one a caller would not learn what its slices end as.
#[derive(Drop)]
pub struct Queue<'a> {
    pub keys: &'a mut [u32],
    pub heap: &'a mut [u32],
    pub pos: &'a mut [u32],
    pub stack: &'a mut [u32],
    pub heaped: usize,
    pub top: usize,
}

impl<'a> Queue<'a> {
    // As the function `insert`, and keeps the counts.
    pub fn insert(&mut self, floor: u32, q: usize, v: u32)
        requires { Inserting floor q v (state_of self.old) }
        ensures same { SameSlices self.old self.new }
        ensures inserted { (x : Inserting floor q v (state_of self.old))
            → Inserted x.p floor q v (state_of self.old) (state_of self.new) }
    {
        let counts = Counts {
            heaped: self.heaped,
            top: self.top,
        };
        let more = insert(
            self.keys, self.heap, self.pos, self.stack, counts, floor, q, v,
        );
        self.heaped = more.heaped;
        self.top = more.top;
    }

    // As the function `decrease`.
    pub fn decrease(&mut self, q: usize, v: u32)
        requires { (stack : List ℕ) × (counts : Counts) × Decreasing q v (state_with self.old stack counts) }
        ensures same { SameSlices self.old self.new }
        ensures stack_stays { self.new.stack.now ≡ self.old.stack.now }
        ensures counts_stay { counts_of self.new ≡ counts_of self.old }
        ensures decreased { (stack : List ℕ) (counts : Counts) →
            let before = state_with self.old stack counts in
            let after = state_with self.new stack counts in
            (x : Decreasing q v before) → Decreased x.p x.floor q v before after }
    {
        decrease(self.keys, self.heap, self.pos, q, v);
    }

    // Takes a pair with the least key out of the queue, if it holds one: the last one on the stack, if there is one. The keys
    // and the stack's slice stay.
    pub fn take(&mut self, floor: u32) -> Option<Next>
        requires { (p : ℕ) × IsQueue p floor self.old }
        ensures same { SameSlices self.old self.new }
        ensures keys_stay { self.new.keys.now ≡ self.old.keys.now }
        ensures stack_stays { self.new.stack.now ≡ self.old.stack.now }
        ensures taken { (p : ℕ) → IsQueue p floor self.old → Takes p floor (state_of self.old) (state_of self.new) result }
    {
        if self.top == 0 && self.heaped == 0 {
            return None;
        }
        let counts = Counts {
            heaped: self.heaped,
            top: self.top,
        };
        let keys = &mut *self.keys;
        let stack = &mut *self.stack;
        let next = take(keys, self.heap, self.pos, stack, counts, floor);
        self.heaped = next.counts.heaped;
        self.top = next.counts.top;
        Some(next)
    }
}
