// The commands of a script, one after another: a letter, and up to six numbers after it. data/readers.txt of `vectors`
// says what each letter means.
ghost use Rattle.std.specs.Prelude.{◌≡◌, ◌==◌, ◌≤◌, ◌%◌, if◌then◌else◌, length};
ghost use Rattle.std.specs.Iterator.{at_most};

use crate::rules::{Rule, low, low_24};
use crate::write::{Field, Role};

// The low bytes of a number. One function for each width: std has no conversion that drops the high bytes.
fn low_byte(x: u64) -> u8 {
    (x % 256) as u8
}

fn low_word(x: u64) -> u32 {
    (x % 4294967296) as u32
}

// What a search is lent: how many entries of each work slice and of the plan slice, and what they are full of.
#[derive(Clone, Copy)]
pub struct SearchSlices {
    pub work: usize,
    pub plan: usize,
    pub full: u32,
    // Whether the plan is free.
    pub free: bool,
    // The work slice, numbered from 1, that has another number of entries; and that number. No slice has the number 0.
    pub slice: u64,
    pub size: usize,
}

impl SearchSlices {
    fn of([work, plan, full, free, slice, size]: [u64; 6]) -> Self {
        SearchSlices {
            work: work as usize,
            plan: plan as usize,
            full: low_word(full),
            free: free != 0,
            slice,
            size: size as usize,
        }
    }

    // How many entries of a work slice are lent.
    pub fn entries(self, slice: u64) -> usize
        ensures { result ≡ (if self.slice == slice then self.size else self.work) }
    {
        if self.slice == slice {
            return self.size;
        }
        self.work
    }

    // What the plan slice is full of.
    pub fn full_step(self) -> u16
        ensures { result ≡ self.full % 65536 }
    {
        (self.full % 65536) as u16
    }
}

// What the conjunction is lent: how many entries of the work slice and bytes of the file buffer, and what both are full of.
#[derive(Clone, Copy)]
pub struct JoinSlices {
    pub work: usize,
    pub file: usize,
    pub full: u32,
    pub full_byte: u8,
}

impl JoinSlices {
    fn of([work, file, full, byte, _, _]: [u64; 6]) -> Self {
        JoinSlices {
            work: work as usize,
            file: file as usize,
            full: low_word(full),
            full_byte: low_byte(byte),
        }
    }
}

// A call whose answer is shown.
#[derive(Clone, Copy)]
pub enum Call {
    ReadChart,
    ReadDiagram { groups: usize, strict: bool },
    RefusedField { file: u32, place: usize },
    Sweep(SearchSlices),
    Guided(SearchSlices),
    Conjoin(JoinSlices),
    // Into so many bytes of a buffer that is full of one byte.
    Reduce { bytes: usize, full: u8 },
}

impl Call {
    // The call of a letter.
    fn of(letter: u8, numbers: [u64; 6]) -> Option<Self> {
        let [a, b, _, _, _, _] = numbers;
        match letter {
            b'C' => Some(Call::ReadChart),
            b'D' | b'L' => Some(Call::ReadDiagram {
                groups: a as usize,
                strict: letter == b'D',
            }),
            b'F' => Some(Call::RefusedField {
                file: low_word(a),
                place: b as usize,
            }),
            b'W' => Some(Call::Sweep(SearchSlices::of(numbers))),
            b'G' => Some(Call::Guided(SearchSlices::of(numbers))),
            b'J' => Some(Call::Conjoin(JoinSlices::of(numbers))),
            b'R' => Some(Call::Reduce {
                bytes: a as usize,
                full: low_byte(b),
            }),
            _ => None,
        }
    }
}

// What a command says. Every letter takes up to six numbers, also one that uses fewer or none.
#[derive(Clone, Copy)]
pub enum Command<'a> {
    // Adds so many fields to the file in the making, by a rule.
    Add { count: u32, rule: Rule },
    // Sets a byte of the buffer, whose first are those of the file in the making.
    SetByte { place: usize, byte: u8 },
    // Makes the file in the making so long.
    SetSize(usize),
    // Takes it for another file, and begins an empty one.
    Take(Role),
    // Takes the chart for the file in the making.
    Restore,
    // Shows a label, and what a call answers: nothing for a letter that stands for no call.
    Show { label: &'a [u8], call: Option<Call> },
    Nothing,
}

impl<'a> Command<'a> {
    fn one(field: Field) -> Self {
        Command::Add {
            count: 1,
            rule: Rule::Same(field),
        }
    }

    // The command of a small letter, and nothing for any other byte.
    fn of(letter: u8, [a, b, c, d, e, f]: [u64; 6]) -> Self {
        match letter {
            b'h' => Self::one(Field::ChartHead {
                stages: low(a),
                start: low(b),
                end: low(c),
            }),
            b's' => Self::one(Field::Step {
                from: low(a),
                to: low(b),
                value: low_word(c),
            }),
            b'r' => Self::one(Field::DiagramHead { root: low(a) }),
            b'n' => Self::one(Field::Node {
                group: low(a),
                lo: low(b),
                hi: low(c),
            }),
            b't' => Command::Add {
                count: low_24(a),
                rule: Rule::Steps {
                    fan: b,
                    reach: low_24(c),
                    spread: low(d),
                    value: low_24(e),
                    rise: low(f),
                },
            },
            b'm' => Command::Add {
                count: low_24(a),
                rule: Rule::Nodes {
                    fan: b,
                    fall: low(c),
                    lo: d,
                    hi: low_24(e),
                    spread: low(f),
                },
            },
            b'l' => Command::Add {
                count: low_24(a),
                rule: Rule::Chain {
                    group: b,
                    fall: low(c),
                    first: low_24(d),
                    lo: e,
                    hi: f,
                },
            },
            b'z' => Command::Add {
                count: low_24(a),
                rule: Rule::Same(Field::Filled {
                    tag: low_byte(b),
                    length: low(c),
                    byte: low_byte(d),
                }),
            },
            b'b' => Command::SetByte {
                place: a as usize,
                byte: low_byte(b),
            },
            b'k' => Command::SetSize(a as usize),
            b'w' => Command::Take(Role::Chart),
            b'v' => Command::Take(Role::Rules),
            b'u' => Command::Take(Role::More),
            b'o' => Command::Restore,
            _ => Command::Nothing,
        }
    }
}

// What is left of a script. Its items are the commands.
#[derive(Drop)]
pub struct Script<'a> {
    rest: &'a [u8],
}

impl<'a> Script<'a> {
    pub fn new(text: &'a [u8]) -> Self
        ensures { result.rest.now ≡ text.now }
    {
        Script { rest: text }
    }

    // The number that stands here, 0 where none does. A comma or a blank after it is passed.
    fn number(&mut self) -> u64
        ensures { length self.new.rest.now ≤ length self.old.rest.now }
    {
        let all = self.rest;
        let end = all
            .iter()
            .position(|x| !x.is_ascii_digit())
            .unwrap_or(all.len());
        let (digits, rest) = all.split_at(end);
        self.rest = match rest {
            [b',' | b' ', behind @ ..] => behind,
            _ => rest,
        };
        digits.iter().fold(0, |value, x| {
            value % 1000000000000000000 * 10 + u64::from(*x % 16)
        })
    }

    // The rest of the line.
    fn line(&mut self) -> &'a [u8]
        ensures { length self.new.rest.now ≤ length self.old.rest.now }
    {
        let all = self.rest;
        let end = all.iter().position(|x| *x == b'\n').unwrap_or(all.len());
        let (line, rest) = all.split_at(end);
        self.rest = rest;
        line
    }

    // The six numbers of a command.
    fn numbers(&mut self) -> [u64; 6]
        ensures { length self.new.rest.now ≤ length self.old.rest.now }
    {
        [
            self.number(),
            self.number(),
            self.number(),
            self.number(),
            self.number(),
            self.number(),
        ]
    }
}

impl<'a> Iterator for Script<'a> {
    type Item = Command<'a>;

    ghost remaining = { λ s. at_most (length s.rest.now) };

    // A capital letter is a call; its label ends the line, as a comment does.
    fn next(&mut self) -> Option<Command<'a>> {
        let (letter, rest) = self.rest.split_first()?;
        self.rest = rest;
        let numbers = self.numbers();
        match *letter {
            b'A'..=b'Z' => Some(Command::Show {
                label: self.line(),
                call: Call::of(*letter, numbers),
            }),
            b'#' => {
                self.line();
                Some(Command::Nothing)
            }
            _ => Some(Command::of(*letter, numbers)),
        }
    }
}
