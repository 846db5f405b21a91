// Why and where a file is refused.
use definitions::Refusal;

// The refusal and its place: the byte position of the faulty field's tag, or of the first byte too many.
#[derive(Clone, Copy)]
pub struct Fault {
    pub refusal: Refusal,
    pub place: usize,
}

// A file that is refused: its fault, and what its fields before the fault gave.
#[derive(Clone, Copy)]
pub struct Stopped<T> {
    pub fault: Fault,
    pub passed: T,
}
