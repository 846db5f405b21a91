// Numbers in a file's bytes, low byte first.
#![tactic(auto)]

ghost use Rattle.std.specs.Prelude.{◌≡◌, ◌+◌, ◌<◌, length};
ghost use Rattle.definitions.specs.Fields.{two, four};

// The two-byte number at a place, low byte first.
pub fn read_u16(b: &[u8], at: usize) -> u16
    requires { at + 1 < length b.now }
    ensures { result ≡ two b.now at }
{
    u16::from_le_bytes([b[at], b[at + 1]])
}

// The four-byte number at a place, low byte first.
pub fn read_u32(b: &[u8], at: usize) -> u32
    requires { at + 3 < length b.now }
    ensures { result ≡ four b.now at }
{
    u32::from_le_bytes([b[at], b[at + 1], b[at + 2], b[at + 3]])
}
