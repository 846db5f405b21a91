// The kind, the group and the two stages of a step in one number: the stage that it leaves lowest, then the stage that it leads to,
// 8 bits each, then the kind in 2 bits and the group. An entry of a column of the table of steps.
ghost use Rattle.std.specs.Prelude.{◌≡◌, ◌<◌, get_or};
ghost use Rattle.chart_fields.specs.Ends.{ends_of, from_of, to_of, tag_of, group_of, froms, tos, tags, groups};

use definitions::{Group, Stage};

// All in one number.
pub fn ends_of(tag: u8, group: Group, from: Stage, to: Stage) -> u32
    requires { group.0 < 1024 }
    ensures { result ≡ ends_of tag group.0 from.0 to.0 }
{
    ((group.0 as u32 * 4 + tag as u32) * 256 + to.0 as u32) * 256 + from.0 as u32
}

// The stage that is left, of such a number.
fn from_of(ends: u32) -> Stage
    ensures { result.0 ≡ from_of ends }
{
    Stage((ends % 256) as u16)
}

// The stage that is led to.
fn to_of(ends: u32) -> Stage
    ensures { result.0 ≡ to_of ends }
{
    Stage((ends / 256 % 256) as u16)
}

// The kind, by its tag.
fn tag_of(ends: u32) -> u8
    ensures { result ≡ tag_of ends }
{
    (ends / 256 / 256 % 4) as u8
}

// The group.
fn group_of(ends: u32) -> Group
    ensures { result.0 ≡ group_of ends }
{
    Group((ends / 256 / 256 / 4) as u16)
}

// The stage that step e leaves.
pub fn from_at(ends: &[u32; 1024], e: usize) -> Stage
    requires { e < 1024 }
    ensures { result.0 ≡ get_or (froms ends.now) e 0 }
{
    from_of(ends[e])
}

// The stage that step e leads to.
pub fn to_at(ends: &[u32; 1024], e: usize) -> Stage
    requires { e < 1024 }
    ensures { result.0 ≡ get_or (tos ends.now) e 0 }
{
    to_of(ends[e])
}

// The kind of step e, by its tag.
pub fn tag_at(ends: &[u32; 1024], e: usize) -> u8
    requires { e < 1024 }
    ensures { result ≡ get_or (tags ends.now) e 0 }
{
    tag_of(ends[e])
}

// The group of step e.
pub fn group_at(ends: &[u32; 1024], e: usize) -> Group
    requires { e < 1024 }
    ensures { result.0 ≡ get_or (groups ends.now) e 0 }
{
    group_of(ends[e])
}
