// Jobs: the fields of a 16-byte record, how its kind uses them, and the kinds by their numbers (document 01, "The job file").
#![tactic(auto)]

pub mod kinds;

// The fields of a record; `unused` is the byte that no kind uses.
#[derive(Clone, Copy)]
pub struct Fields {
    pub kind: u32,
    pub who: u32,
    pub width: u32,
    pub unused: u32,
    pub number: u32,
    pub value: u64,
}

// The widths that a kind takes: none, so that the field is 0, those of any access, or a word's.
#[derive(Clone, Copy)]
pub enum Widths {
    Unused,
    Any,
    Word,
}

// How a kind uses its fields: the highest who and number that it takes, its widths, and whether it uses the value. Of a field that it does not use
// it takes 0 alone.
#[derive(Clone, Copy)]
pub struct Uses {
    pub who: u32,
    pub width: Widths,
    pub number: u32,
    pub value: bool,
}
