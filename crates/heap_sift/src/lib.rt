// The steps inside the calls of a binary min-heap with positions, over the pairs 0 to p - 1, in three lent slices: keys has the
// key of each pair, heap the n pairs of the heap, in heap order, and pos the place of each of these. What else stands in heap
// and pos is arbitrary, and nothing from p on is touched. No step reads p: its contract holds for every p that fits.
// They take the slices apart: as methods of a struct that holds these, the loops were 5 percent slower.
#![tactic(auto)]

ghost use Rattle.std.specs.Prelude.{◌≡◌, ℕ, ◌+◌, ◌≤◌, ◌<◌, length, get_or};
ghost use Rattle.heap_sift.specs.Heap.{slices, key, parent};
ghost use Rattle.heap_sift.specs.Sift.{Entry, Swapped, LeastChild, SiftingUp, SiftingDown, Sifted};

// The key of the pair at place i.
pub fn key_at<'a>(keys: &'a [u32], heap: &'a [u32], i: usize) -> u32
    requires { (i < length heap.now) × (get_or heap.now i 0 < length keys.now) }
    ensures { result ≡ key keys.now heap.now i }
{
    keys[heap[i] as usize]
}

// Lets the pairs at the places i and j change places.
pub fn swap(heap: &mut [u32], pos: &mut [u32], i: usize, j: usize)
    requires { Entry heap.old pos.old i × Entry heap.old pos.old j }
    ensures { Swapped i j heap.old pos.old heap.new pos.new }
{
    let a = heap[i] as usize;
    let b = heap[j] as usize;
    heap.swap(i, j);
    pos[a] = j as u32;
    pos[b] = i as u32;
}

// The place above place x.
fn parent(x: usize) -> usize
    requires { 0 < x }
    ensures { result ≡ parent x }
{
    (x - 1) / 2
}

// Moves the pair at place `at`, whose key is v, up to where it belongs: above older pairs of the same key.
pub fn sift_up(keys: &[u32], heap: &mut [u32], pos: &mut [u32], at: usize, v: u32)
    requires { SiftingUp at v (slices keys.now heap.old pos.old) }
    ensures { let before = slices keys.now heap.old pos.old in
        let after = slices keys.now heap.new pos.new in
        (x : SiftingUp at v before) → Sifted x.p x.n before after }
{
    let mut x = at;
    while 0 < x {
        let y = parent(x);
        let above = key_at(keys, heap, y);
        if above < v {
            return;
        }
        swap(heap, pos, y, x);
        x = y;
    }
}

// The child of place x with the least key.
fn least_child<'a>(keys: &'a [u32], heap: &'a [u32], n: usize, x: usize) -> usize
    requires inside { (n ≤ length heap.now) × (x + x + 1 < n) }
    requires by_index { (i : ℕ) → i < n → get_or heap.now i 0 < length keys.now }
    ensures { LeastChild (key keys.now heap.now) n x result }
{
    let l = x + x + 1;
    let r = l + 1;
    if n <= r {
        return l;
    }
    let a = key_at(keys, heap, l);
    let b = key_at(keys, heap, r);
    if b < a {
        return r;
    }
    l
}

// Moves the pair at place `at`, whose key is v, down to where it belongs.
pub fn sift_down(keys: &[u32], heap: &mut [u32], pos: &mut [u32], n: usize, at: usize, v: u32)
    requires { SiftingDown n at v (slices keys.now heap.old pos.old) }
    ensures { let before = slices keys.now heap.old pos.old in
        let after = slices keys.now heap.new pos.new in
        (x : SiftingDown n at v before) → Sifted x.p n before after }
{
    let mut x = at;
    while x + x + 1 < n {
        let c = least_child(keys, heap, n, x);
        let below = key_at(keys, heap, c);
        if v <= below {
            return;
        }
        swap(heap, pos, x, c);
        x = c;
    }
}
