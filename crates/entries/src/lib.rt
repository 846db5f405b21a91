// Entries of a lent slice before they are used.
#![tactic(auto)]

ghost use Rattle.std.specs.Prelude.{◌≡◌, ◌++◌, ◌≤◌, length, drop, replicate};
ghost use Rattle.definitions.specs.Basics.{NONE};

use definitions::NONE;

// The first `count` entries become NONE.
pub fn clear(entries: &mut [u32], count: usize)
    requires { count ≤ length entries.old }
    ensures { entries.new ≡ replicate count NONE ++ drop count entries.old }
{
    entries[..count].fill(NONE);
}
