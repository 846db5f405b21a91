// Two diagrams in tables, and a pair of nodes, one of each: its work entry, what is known of it, and its halves.
ghost use Rattle.std.specs.Prelude.{◌≡◌, ◌+◌, ◌*◌, ◌≤◌, ◌<◌};
ghost use Rattle.apply.specs.Operands.{half_in};
ghost use Rattle.apply.specs.Walks.{Placed, known_in};
ghost use Rattle.apply.specs.Views.{least_step, half_of};

use diagram_fields::{hi_of, lo_of, step_of};

// The numbers of two nodes, one of each diagram.
#[derive(Clone, Copy)]
pub struct Pair {
    pub first: u16,
    pub second: u16,
}

// Two diagrams in their tables, and how many nodes the second has with 0 and 1: work entries of pairs stand in rows of that
// width.
#[derive(Clone, Copy)]
pub struct Operands<'a> {
    pub left: &'a [u32; 512],
    pub right: &'a [u32; 512],
    pub width: usize,
}

// A node's lo, or hi, where it tests the step, else the node itself.
#[tactic(auto, unfolding(crate::specs::Operands::half_in, definitions::specs::Basics::pick))]
fn half<const HI: bool>(inner: &[u32; 512], step: u16, n: u16) -> u16
    requires { n < 512 }
    ensures { result ≡ half_in HI inner.now step n }
{
    let w = inner[n as usize];
    if step_of(w) != step {
        return n;
    }
    if HI { hi_of(w) } else { lo_of(w) }
}

impl<'a> Operands<'a> {
    // The work entry of a pair.
    pub(crate) fn place(&self, pair: Pair) -> usize
        requires { (self.now.width ≤ 512) × (pair.first < 512) × (pair.second < 512) }
        ensures { result ≡ pair.first * self.now.width + pair.second }
    {
        pair.first as usize * self.width + pair.second as usize
    }

    // The reference of a pair that needs no walk: one with a 0, 1 and 1, or one that is done.
    #[tactic(auto, unfolding(crate::specs::Walks::known_in, definitions::specs::Basics::pick))]
    pub(crate) fn known(&self, work: &[u32], pair: Pair) -> Option<u16>
        requires { Placed self.now.width pair.first pair.second work.now }
        ensures { result ≡ known_in work.now self.now.width pair.first pair.second }
    {
        if pair.first == 0 || pair.second == 0 {
            return Some(0);
        }
        if pair.first + pair.second == 2 {
            return Some(1);
        }
        let entry = work[self.place(pair)];
        if entry < 512 {
            Some(entry as u16)
        } else {
            None
        }
    }

    // The step at which a pair is taken apart: the lesser of its nodes' steps. (That of 0 and 1 is above all steps.)
    pub(crate) fn top(&self, pair: Pair) -> u16
        requires { (pair.first < 512) × (pair.second < 512) }
        ensures { result ≡ least_step self.now pair }
    {
        step_of(self.left[pair.first as usize]).min(step_of(self.right[pair.second as usize]))
    }

    // The lo half of a pair, or the hi half.
    pub(crate) fn half<const HI: bool>(&self, pair: Pair) -> Pair
        requires { (pair.first < 512) × (pair.second < 512) }
        ensures { result ≡ half_of HI self.now pair }
    {
        let step = self.top(pair);
        Pair {
            first: half::<HI>(self.left, step, pair.first),
            second: half::<HI>(self.right, step, pair.second),
        }
    }
}
