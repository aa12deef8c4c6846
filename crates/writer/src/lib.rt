// The job writer: what it knows of the buffer that it is lent, and why it refuses a call (document 02, note 1).
#![tactic(auto)]

// The calls that were appended since the job was begun.
#[derive(Clone, Copy, Debug, PartialEq, Eq)]
pub struct Writer {
    pub count: u32,
}

// Why a call is refused, by its number.
#[derive(Clone, Copy, Debug, PartialEq, Eq)]
pub enum WriteRefusal {
    Malformed = 5,
    NoRoom = 20,
}

// A refusal leaves the buffer as it was, and has the writer as it was; of a begin, before which there is none, it has the writer of no calls.
#[derive(Clone, Copy, Debug, PartialEq, Eq)]
pub struct Refused {
    pub why: WriteRefusal,
    pub writer: Writer,
}
