// The keys of pairs, filled in blocks of 128: each block when its first pair is opened.
#![tactic(auto)]

ghost use Rattle.std.specs.Prelude.{◌≡◌, ◌≤◌, ◌<◌, length};
ghost use Rattle.guided_keys.specs.Fills.{BlockOpened};

use definitions::NONE;

// Fills the block of keys that pair x stands in, unless that is done: none of its pairs was ever opened. `filled` marks the
// blocks that are filled. There are `pairs` keys in all, so the last block may be shorter.
pub fn open_block(keys: &mut [u32], filled: &mut [bool; 1024], x: usize, pairs: usize)
    requires { (x < pairs) × (pairs ≤ 131072) × (pairs ≤ length keys.old) × (length filled.old ≡ 1024) }
    ensures { BlockOpened x pairs keys.old filled.old keys.new filled.new }
{
    let b = x / 128;
    if filled[b] {
        return;
    }
    let first = b * 128;
    let until = (first + 128).min(pairs);
    keys[first..until].fill(NONE);
    filled[b] = true;
}
