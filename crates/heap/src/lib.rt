// A binary min-heap with positions, over the pairs 0 to p - 1, in three lent slices: keys has the key of each pair, heap the n
// pairs of the heap, in heap order, and pos the place of each of these. What else stands in heap and pos is arbitrary, and
// nothing from p on is touched. No call reads p: its contract holds for every p that fits.
#![tactic(auto)]

ghost use Rattle.std.specs.Prelude.{ℕ, ◌+◌, ◌<◌, ◌≡◌};
ghost use Rattle.heap_sift.specs.Heap.{slices, Heap as Ordered};
ghost use Rattle.heap.specs.Calls.{Pushing, Pushed, Decreasing, Decreased, Popped, Pops};
ghost use Rattle.heap.specs.Views.{slices_of, IsHeap, SameSlices};

use heap_sift::{key_at, sift_down, sift_up, swap};

// Puts pair q, which is not in the heap, into it at the key v. There is room for it: the heap holds no pair twice.
pub fn push(keys: &mut [u32], heap: &mut [u32], pos: &mut [u32], n: usize, q: usize, v: u32)
    requires { Pushing n q (slices keys.old heap.old pos.old) }
    ensures { let before = slices keys.old heap.old pos.old in
        let after = slices keys.new heap.new pos.new in
        (x : Pushing n q before) → Pushed x.p n q v before after }
{
    keys[q] = v;
    heap[n] = q as u32;
    pos[q] = n as u32;
    sift_up(keys, heap, pos, n, v);
}

// Gives pair q, which is in the heap, the key v, at most the one that it has.
pub fn decrease_key(keys: &mut [u32], heap: &mut [u32], pos: &mut [u32], q: usize, v: u32)
    requires { Decreasing q v (slices keys.old heap.old pos.old) }
    ensures { let before = slices keys.old heap.old pos.old in
        let after = slices keys.new heap.new pos.new in
        (x : Decreasing q v before) → Decreased x.p x.n q v before after }
{
    keys[q] = v;
    let at = pos[q] as usize;
    sift_up(keys, heap, pos, at, v);
}

// Takes a pair with the least key out of the heap.
pub fn pop_min(keys: &[u32], heap: &mut [u32], pos: &mut [u32], n: usize) -> usize
    requires { (p : ℕ) × Ordered (slices keys.now heap.old pos.old) p n × (0 < n) }
    ensures { let before = slices keys.now heap.old pos.old in
        let after = slices keys.now heap.new pos.new in
        (p : ℕ) → Ordered before p n → Popped p n result before after }
{
    let last = n - 1;
    let r = heap[0] as usize;
    let v = key_at(keys, heap, last);
    swap(heap, pos, 0, last);
    sift_down(keys, heap, pos, last, 0, v);
    r
}

// The three slices, and how many pairs the heap has.
#[derive(Drop)]
pub struct Heap<'a> {
    pub keys: &'a mut [u32],
    pub heap: &'a mut [u32],
    pub pos: &'a mut [u32],
    pub held: usize,
}

impl<'a> Heap<'a> {
    // As the function `push`, and counts the pair.
    pub fn push(&mut self, q: usize, v: u32)
        requires { Pushing self.old.held q (slices_of self.old) }
        ensures same { SameSlices self.old self.new }
        ensures one_more { self.new.held ≡ self.old.held + 1 }
        ensures pushed { (x : Pushing self.old.held q (slices_of self.old))
            → Pushed x.p self.old.held q v (slices_of self.old) (slices_of self.new) }
    {
        let n = self.held;
        push(self.keys, self.heap, self.pos, n, q, v);
        self.held = n + 1;
    }

    // As the function `decrease_key`.
    pub fn decrease_key(&mut self, q: usize, v: u32)
        requires { Decreasing q v (slices_of self.old) }
        ensures same { SameSlices self.old self.new }
        ensures as_many { self.new.held ≡ self.old.held }
        ensures decreased { (x : Decreasing q v (slices_of self.old))
            → Decreased x.p x.n q v (slices_of self.old) (slices_of self.new) }
    {
        decrease_key(self.keys, self.heap, self.pos, q, v);
    }

    // Takes a pair with the least key out of the heap, if it has one. The keys stay.
    pub fn pop_min(&mut self) -> Option<usize>
        requires { (p : ℕ) × IsHeap p self.old }
        ensures same { SameSlices self.old self.new }
        ensures keys_stay { self.new.keys.now ≡ self.old.keys.now }
        ensures popped { (p : ℕ) → IsHeap p self.old → Pops p self.old self.new result }
    {
        if self.held == 0 {
            return None;
        }
        let n = self.held;
        let keys = &mut *self.keys;
        let r = pop_min(keys, self.heap, self.pos, n);
        self.held = n - 1;
        Some(r)
    }
}
