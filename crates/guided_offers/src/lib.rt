// What a step of the guided search offers: the estimate of the pair that it leads to, and a key for that pair.
#![tactic(auto)]

ghost use Rattle.std.specs.Prelude.{◌≡◌, ◌<◌};
ghost use Rattle.guided_offers.specs.Estimates.{paired};
ghost use Rattle.guided_offers.specs.Work.{Offering, Relaxes};
ghost use Rattle.guided_offers.specs.Views.{estimates_of, work_of, counts_of, SameSlices};

use definitions::{NONE, Node, Stage};
use queue::Queue;

// The estimates of stages and of nodes. NONE, where there is none, is the largest number.
#[derive(Clone, Copy)]
pub struct Estimates<'a> {
    pub by_stage: &'a [u32; 256],
    pub by_node: &'a [u32; 512],
}

impl<'a> Estimates<'a> {
    // The larger of the stage's estimate and the node's: none if either is. A number, as in the tables, and no Option: who knows
    // that a pair has an estimate reckons with it untested.
    pub fn of_pair(self, s: Stage, n: Node) -> u32
        requires { (s.0 < 256) × (n.0 < 512) }
        ensures { result ≡ paired (estimates_of self.entry) s.0 n.0 }
    {
        self.by_stage[s.0 as usize].max(self.by_node[n.0 as usize])
    }
}

// The queue of open pairs, and by what each pair got its key.
#[derive(Drop)]
pub struct Work<'q, 'a, 'v> {
    pub queue: &'q mut Queue<'a>,
    pub via: &'v mut [u32],
}

impl<'q, 'a, 'v> Work<'q, 'a, 'v> {
    // Offers pair y the key v, by a step and a node that `mark` has: where that is lower than the key that y has, y gets it
    // and is opened or moved up.
    pub fn relax(&mut self, floor: u32, y: usize, v: u32, mark: u32)
        requires { Offering floor y v (work_of self.old) (counts_of self.old) }
        ensures same { SameSlices self.old self.new }
        ensures relaxed { (x : Offering floor y v (work_of self.old) (counts_of self.old))
            → Relaxes x.p floor y v mark (work_of self.old) (counts_of self.old) (work_of self.new) (counts_of self.new) }
    {
        let old = self.queue.keys[y];
        if old <= v {
            return;
        }
        self.via[y] = mark;
        // None is NONE: the keys stand in a slice that a caller lends.
        if old == NONE {
            self.queue.insert(floor, y, v);
            return;
        }
        self.queue.decrease(y, v);
    }
}
