// The unique table of a diagram: a hash table with chains. A node is put in where none alike is found, and its number is the
// order in which it was put in, from 2 on. The nodes stand in one array, as in the table of any diagram; the chains are
// beside it, with the count of nodes.
#![tactic(auto)]

ghost use Rattle.std.specs.Prelude.{◌≡◌, ◌+◌, ◌*◌, ◌≤◌, ◌<◌, get_or};
ghost use Rattle.unique_table.specs.Tables.{unique_table, Table, count_in, hash, Finds, Adds, Interns};
ghost use Rattle.unique_table.specs.Held.{held, SameArray, Blank};

use diagram_fields::word;

// Where the chains' first nodes begin; before them each node has the next one of its chain.
const HEADS: usize = 512;

// The chain that a node is in.
fn chain(w: u32) -> usize
    ensures { (result ≡ hash w) × (result < 512) }
{
    w as usize * 2654435769 / 8388608 % 512
}

// The number of a node, where a table of these nodes and chains has it.
pub fn find<'a>(nodes: &'a [u32; 512], chains: &'a [u16; 1024], w: u32) -> Option<u16>
    requires { Table (unique_table nodes.now chains.now) }
    ensures { Finds (unique_table nodes.now chains.now) w result }
{
    let mut m = chains[HEADS + chain(w)];
    while 2 <= m {
        let at = m as usize;
        if nodes[at] == w {
            return Some(m);
        }
        m = chains[at];
    }
    None
}

// How many inner nodes a table of these chains has.
pub fn count(chains: &[u16; 1024]) -> usize
    ensures { result ≡ get_or chains.now 0 0 }
{
    chains[0] as usize
}

#[derive(Drop)]
pub struct UniqueTable<'a> {
    // The nodes, each at its number, in an array that is lent.
    pub nodes: &'a mut [u32; 512],
    // The count of nodes, then the next node of each node's chain, then the first of each chain.
    pub chains: [u16; 1024],
}

impl<'a> UniqueTable<'a> {
    // A table without nodes; the array keeps what it has until nodes are put there.
    pub fn over(nodes: &'a mut [u32; 512]) -> UniqueTable<'a>
        ensures same { result.nodes.ghost_name ≡ nodes.entry.ghost_name }
        ensures blank { Blank nodes.old (held result) }
    {
        UniqueTable {
            nodes,
            chains: [0; 1024],
        }
    }

    // How many inner nodes the table has.
    pub fn count(&self) -> usize
        ensures { result ≡ count_in (held self.now) }
    {
        count(&self.chains)
    }

    // The number of a node, where the table has it.
    pub fn find(&self, w: u32) -> Option<u16>
        requires { Table (held self.now) }
        ensures { Finds (held self.now) w result }
    {
        find(&*self.nodes, &self.chains, w)
    }

    // A new node, as the last one.
    pub fn add(&mut self, w: u32) -> u16
        requires { Table (held self.old) × (count_in (held self.old) < 510) }
        ensures same { SameArray self.old self.new }
        ensures adds { Adds (held self.old) w result (held self.new) }
    {
        let k = chain(w);
        let n = self.count() + 2;
        let head = self.chains[HEADS + k];
        self.nodes[n] = w;
        self.chains[n] = head;
        self.chains[HEADS + k] = n as u16;
        self.chains[0] = (n - 1) as u16;
        n as u16
    }

    // The reference of a node of this step, lo and hi: lo itself where it is equal to hi, else that of the node alike, else
    // that of a new node; none where 510 nodes stand in the table.
    pub fn intern(&mut self, step: u16, lo: u16, hi: u16) -> Option<u16>
        requires { Table (held self.old) × (lo < 512) × (hi < 512) }
        ensures same { SameArray self.old self.new }
        ensures interns { Interns (held self.old) step lo hi result (held self.new) }
    {
        if lo == hi {
            return Some(lo);
        }
        let w = word(step, lo, hi);
        if let Some(found) = self.find(w) {
            return Some(found);
        }
        if 510 <= self.count() {
            return None;
        }
        Some(self.add(w))
    }
}
