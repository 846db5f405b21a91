// An inner node's body: what it is refused for, and the node in one number.
ghost use Rattle.std.specs.Prelude.{◌≡◌, ◌≤◌, ◌<◌, length, get_or};
ghost use Rattle.definitions.specs.Fields.{two};
ghost use Rattle.definitions.specs.Diagrams.{child_fits, node_fault, inner_node_of};
ghost use Rattle.definitions.specs.Refusals.{fault_number};
ghost use Rattle.diagram_fields.specs.Words.{step_of, word_of};

use crate::words::{step_of, word};
use definitions::Refusal;
use field_numbers::read_u16;

// A node may be a child of the node numbered `own` with this step: it is below `own` and, if inner, has a larger step.
fn child_fits(inner: &[u32; 512], own: usize, key: u16, child: u16) -> bool
    requires { own ≤ 512 }
    ensures { result ≡ child_fits (λ k. step_of (get_or inner.now k 0)) own key child }
{
    let at = child as usize;
    at < own && (at < 2 || key < step_of(inner[at]))
}

// Whether a node's body keeps the limits after `count` nodes, which stand in the table, over so many groups.
#[tactic(auto, unfolding(definitions::specs::Diagrams::node_fault, definitions::specs::Basics::pick))]
pub fn check_node(b: &[u8], groups: usize, inner: &[u32; 512], count: usize) -> Result<(), Refusal>
    requires { length b.now ≡ 6 }
    ensures { fault_number result ≡ node_fault groups (λ k. step_of (get_or inner.now k 0)) count b.now }
{
    if 510 <= count {
        return Err(Refusal::NodeLimit);
    }
    let key = read_u16(b, 0);
    if groups <= key as usize {
        return Err(Refusal::NodeLimit);
    }
    let own = count + 2;
    if child_fits(inner, own, key, read_u16(b, 2)) && child_fits(inner, own, key, read_u16(b, 4)) {
        Ok(())
    } else {
        Err(Refusal::NodeLimit)
    }
}

// A node's body in one number.
pub fn node_word(b: &[u8]) -> u32
    requires { (length b.now ≡ 6) × (two b.now 2 < 512) × (two b.now 4 < 512) }
    ensures { result ≡ word_of (inner_node_of b.now) }
{
    let key = read_u16(b, 0);
    let low = read_u16(b, 2);
    let high = read_u16(b, 4);
    word(key, low, high)
}
