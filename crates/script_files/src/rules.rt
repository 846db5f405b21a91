// Many fields by a rule, each by its number, from 0.
ghost use Rattle.std.specs.Prelude.{◌≡◌, ◌<◌, ◌%◌};
ghost use Rattle.script_files.specs.declared.write.Field.{Field};
ghost use Rattle.script_files.specs.declared.rules.Rule.TheVariants.{Same};

use crate::write::Field;

// A field by its number i. A script's numbers are cut to what the types here hold; reach, value, hi and first to three bytes.
#[derive(Clone, Copy)]
pub enum Rule {
    // The same for each i.
    Same(Field),
    // A step from stage i / fan, at most 254, by reach + spread × (i mod fan), at most to stage 255; its value is
    // value + rise × i, modulo 1,000,001.
    Steps {
        fan: u64,
        reach: u32,
        spread: u16,
        value: u32,
        rise: u16,
    },
    // A node of group 1023 - fall × (i / fan); lo is that many nodes before it, and hi is hi + spread × (i mod fan) nodes
    // before it.
    Nodes {
        fan: u64,
        fall: u16,
        lo: u64,
        hi: u32,
        spread: u16,
    },
    // A node of group - fall × i with the number first + i; lo and hi are that many nodes before it.
    Chain {
        group: u64,
        fall: u16,
        first: u32,
        lo: u64,
        hi: u64,
    },
}

// The low two bytes of a number.
pub(crate) fn low(x: u64) -> u16
    ensures { result ≡ x % 65536 }
{
    (x % 65536) as u16
}

// The low three bytes of a number.
pub(crate) fn low_24(x: u64) -> u32
    ensures { result ≡ x % 16777216 }
{
    (x % 16777216) as u32
}

// The product of the low two bytes of two numbers.
pub fn times(a: u64, b: u64) -> u64
    ensures { result < 4294967296 }
{
    u64::from(low(a)) * u64::from(low(b))
}

fn step(i: u64, fan: u64, reach: u32, spread: u16, value: u32, rise: u16) -> Field {
    let fan = fan.max(1);
    let from = (i / fan).min(254);
    let to = from + u64::from(reach) + times(u64::from(spread), i % fan);
    let value = (u64::from(value) + times(u64::from(rise), i)) % 1000001;
    Field::Step {
        from: low(from),
        to: low(to.min(255)),
        value: value as u32,
    }
}

// A node with a number, by how many nodes lo and hi are before it.
fn node(group: u64, number: u64, lo: u64, hi: u64) -> Field {
    Field::Node {
        group: low(group),
        lo: low(number.saturating_sub(lo)),
        hi: low(number.saturating_sub(hi)),
    }
}

impl Rule {
    pub fn field(self, i: u64) -> Field
        ensures { (f : Field) → self ≡ Same f → result ≡ f }
    {
        match self {
            Rule::Same(field) => field,
            Rule::Steps {
                fan,
                reach,
                spread,
                value,
                rise,
            } => step(i, fan, reach, spread, value, rise),
            Rule::Nodes {
                fan,
                fall,
                lo,
                hi,
                spread,
            } => {
                let fan = fan.max(1);
                node(
                    1023u64.saturating_sub(times(u64::from(fall), i / fan)),
                    u64::from(low_24(i)) + 2,
                    lo,
                    u64::from(hi) + times(u64::from(spread), i % fan),
                )
            }
            Rule::Chain {
                group,
                fall,
                first,
                lo,
                hi,
            } => node(
                group.saturating_sub(times(u64::from(fall), i)),
                u64::from(first) + u64::from(low_24(i)),
                lo,
                hi,
            ),
        }
    }
}
