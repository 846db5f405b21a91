// The table of inner nodes: at each number its node's step, lo and hi in one number.
ghost use Rattle.std.specs.Prelude.{◌≡◌, ◌<◌, get_or};
ghost use Rattle.diagram_fields.specs.Words.{word_of, leaf, step_of, lo_of, hi_of, nodes_in};

// In place of a step at nodes 0 and 1: no step has it.
const MARK: u16 = 16383;

// An inner node in one number, its lo lowest, since walks go along lo. (A step that does not fit is cut; no chart has one.)
pub fn word(step: u16, lo: u16, hi: u16) -> u32
    requires { (lo < 512) × (hi < 512) }
    ensures { result ≡ word_of (record { step = step; lo = lo; hi = hi }) }
{
    (step as u32 % 16384 * 512 + hi as u32) * 512 + lo as u32
}

// What stands at nodes 0 and 1.
pub fn leaf_word() -> u32
    ensures { result ≡ word_of leaf }
{
    word(MARK, 0, 0)
}

// The step in such a number.
pub fn step_of(w: u32) -> u16
    ensures { result ≡ step_of w }
{
    (w / 512 / 512) as u16
}

// The lo in such a number.
pub fn lo_of(w: u32) -> u16
    ensures { result ≡ lo_of w }
{
    (w % 512) as u16
}

// The hi in such a number.
pub fn hi_of(w: u32) -> u16
    ensures { result ≡ hi_of w }
{
    (w / 512 % 512) as u16
}

// A node's step, by the table.
pub fn step_at(inner: &[u32; 512], n: usize) -> u16
    requires { n < 512 }
    ensures { result ≡ get_or (nodes_in inner.now).step n 0 }
{
    step_of(inner[n])
}

// A node's lo, by the table.
pub fn lo_at(inner: &[u32; 512], n: usize) -> u16
    requires { n < 512 }
    ensures { result ≡ get_or (nodes_in inner.now).lo n 0 }
{
    lo_of(inner[n])
}

// A node's hi, by the table.
pub fn hi_at(inner: &[u32; 512], n: usize) -> u16
    requires { n < 512 }
    ensures { result ≡ get_or (nodes_in inner.now).hi n 0 }
{
    hi_of(inner[n])
}
