// Files made in one buffer, field by field. Past the buffer's end nothing is written.
ghost use Rattle.std.specs.Prelude.{◌≡◌, ◌<◌, ◌≤◌, slice_set};
ghost use Rattle.std.specs.List.{copy_within};
ghost use Rattle.script_files.specs.Files.{place, size, part, Grown};

// How many bytes of the buffer a file has. A longer one goes on into the next file's.
pub const LONGEST: usize = 32784;

// How many bytes the buffer of all files has.
pub const BUFFER: usize = 4 * LONGEST;

// A field, by the numbers in its body.
#[derive(Clone, Copy)]
pub enum Field {
    ChartHead { stages: u16, start: u16, end: u16 },
    Step { from: u16, to: u16, value: u32 },
    DiagramHead { root: u16 },
    Node { group: u16, lo: u16, hi: u16 },
    // Any tag and length, and a body full of one byte.
    Filled { tag: u8, length: u16, byte: u8 },
}

// A file that calls read: the chart, the diagram, the second diagram.
#[derive(Clone, Copy)]
pub enum Role {
    Chart,
    Rules,
    More,
}

impl Role {
    // Where in the buffer the file begins.
    fn place(self) -> usize
        ensures { result ≡ place self }
    {
        match self {
            Role::Chart => LONGEST,
            Role::Rules => 2 * LONGEST,
            Role::More => 3 * LONGEST,
        }
    }
}

// The buffer has the file in the making at its start, and after it the chart, the diagram and the second diagram. Beside it:
// how many bytes each is said to have, which may be more than the buffer has.
#[derive(Drop)]
pub struct Files {
    pub buffer: [u8; BUFFER],
    pub making: usize,
    pub chart: usize,
    pub rules: usize,
    pub more: usize,
}

impl Files {
    // All empty.
    pub fn new() -> Self
        ensures making { result.making ≡ 0 }
        ensures chart { result.chart ≡ 0 }
        ensures rules { result.rules ≡ 0 }
        ensures more { result.more ≡ 0 }
    {
        Files {
            buffer: [0; BUFFER],
            making: 0,
            chart: 0,
            rules: 0,
            more: 0,
        }
    }

    // So many bytes from a place of the buffer on, or the whole buffer where there are not so many.
    fn part(&self, from: usize, count: usize) -> &[u8]
        ensures { result.now ≡ part self.now.buffer from count }
    {
        match from.checked_add(count) {
            Some(end) if end <= BUFFER => &self.buffer[from..end],
            _ => &self.buffer,
        }
    }

    // The bytes of the file in the making.
    pub fn making(&self) -> &[u8]
        ensures { result.now ≡ part self.now.buffer 0 self.now.making }
    {
        self.part(0, self.making)
    }

    // How many bytes another file has.
    fn size(&self, role: Role) -> usize
        ensures { result ≡ size self.now role }
    {
        match role {
            Role::Chart => self.chart,
            Role::Rules => self.rules,
            Role::More => self.more,
        }
    }

    // The bytes of another file.
    pub fn file(&self, role: Role) -> &[u8]
        ensures { result.now ≡ part self.now.buffer (place role) (size self.now role) }
    {
        self.part(role.place(), self.size(role))
    }

    // Says how many bytes the file in the making has.
    pub fn set_size(&mut self, count: usize)
        ensures set { self.new.making ≡ count }
        ensures kept { self.new.buffer ≡ self.old.buffer }
    {
        self.making = count;
    }

    // Sets the byte at a place of the buffer.
    pub fn set_byte(&mut self, place: usize, byte: u8)
        ensures kept { self.new.making ≡ self.old.making }
        ensures set { place < 131136 → self.new.buffer ≡ slice_set self.old.buffer place byte }
        ensures past { 131136 ≤ place → self.new.buffer ≡ self.old.buffer }
    {
        if place < BUFFER {
            self.buffer[place] = byte;
        }
    }

    // Takes the file in the making for another, and begins an empty one.
    pub fn take(&mut self, role: Role)
        ensures bytes { self.new.buffer ≡ copy_within self.old.buffer 0 32784 (place role) }
        ensures size { size self.new role ≡ self.old.making }
        ensures empty { self.new.making ≡ 0 }
    {
        self.buffer.copy_within(..LONGEST, role.place());
        match role {
            Role::Chart => self.chart = self.making,
            Role::Rules => self.rules = self.making,
            Role::More => self.more = self.making,
        }
        self.making = 0;
    }

    // Takes the chart for the file in the making.
    pub fn restore(&mut self)
        ensures bytes { self.new.buffer ≡ copy_within self.old.buffer 32784 65568 0 }
        ensures size { self.new.making ≡ self.old.chart }
    {
        self.buffer.copy_within(LONGEST..2 * LONGEST, 0);
        self.making = self.chart;
    }

    // Adds a byte at the end of the file in the making, if the buffer goes so far; the file grows past it too.
    // No script of 65,536 bytes makes a size of 2^64: its numbers are below 10^19, and what it adds below 10^17.
    fn append_byte(&mut self, byte: u8)
        ensures grown { Grown self.old self.new }
    {
        if self.making < BUFFER {
            self.buffer[self.making] = byte;
        }
        self.making = self.making.saturating_add(1);
    }

    // Adds bytes, one by one: most are two.
    fn append(&mut self, bytes: &[u8])
        ensures grown { Grown self.old self.new }
    {
        for byte in bytes {
            self.append_byte(*byte);
        }
    }

    // Adds a field's tag and the length of its body.
    fn add_header(&mut self, tag: u8, length: u16)
        ensures grown { Grown self.old self.new }
    {
        self.append(&[tag]);
        self.append(&length.to_le_bytes());
    }

    // Adds numbers of two bytes.
    fn add_numbers(&mut self, numbers: &[u16])
        ensures grown { Grown self.old self.new }
    {
        for number in numbers {
            self.append(&number.to_le_bytes());
        }
    }

    // Adds a field whose body is numbers of two bytes, or begins with them.
    fn add_field(&mut self, tag: u8, length: u16, numbers: &[u16])
        ensures grown { Grown self.old self.new }
    {
        self.add_header(tag, length);
        self.add_numbers(numbers);
    }

    // Adds a field of any tag and length, whose body is full of one byte.
    fn add_filled(&mut self, tag: u8, length: u16, byte: u8)
        ensures grown { Grown self.old self.new }
    {
        self.add_header(tag, length);
        let length = usize::from(length);
        let start = self.making.min(BUFFER);
        let end = (start + length).min(BUFFER);
        self.buffer[start..end].fill(byte);
        self.making = self.making.saturating_add(length);
    }

    // Adds a field.
    pub fn add(&mut self, field: Field)
        ensures grown { Grown self.old self.new }
    {
        match field {
            Field::ChartHead { stages, start, end } => self.add_field(1, 6, &[stages, start, end]),
            Field::Step { from, to, value } => {
                self.add_field(2, 8, &[from, to]);
                self.append(&value.to_le_bytes());
            }
            Field::DiagramHead { root } => self.add_field(17, 2, &[root]),
            Field::Node { group, lo, hi } => self.add_field(18, 6, &[group, lo, hi]),
            Field::Filled { tag, length, byte } => self.add_filled(tag, length, byte),
        }
    }
}
