// A line of the script is 96 bytes long, in columns of fixed width: a text, what is asked for, by whom, of what width, a number, a value,
// and the code and the value of the answer:
//     read before the first reset                       read  c 4 040023C10 000000000 00010 000000000
// Who is c for the CPU, d for the debugger and x for neither. Numbers are hexadecimal, but decimal for pass, wait and hand.
// A fetch is always the CPU's, of 4 bytes: its columns say c and 4 and are not looked at.
use part::{Access, Call, Lapse, Link};
use time::{Micros, Millis};

// What a line asks for, by its first two letters.
#[derive(Clone, Copy, PartialEq)]
pub enum Ask {
    Boot,
    On,
    Off,
    Read,
    Write,
    Fetch,
    Pass,
    Wait,
    // A window: the number is its sector, the value an offset in it; the code stands for its length, the answer for the word there.
    Show,
    // A record made by hand, busy with so many microseconds left.
    Hand,
    // A read under a main flash of 16 KiB, under 15 option cells, under 4,095 bytes of backup SRAM, and with a timing of 0.
    Main,
    Options,
    Sram,
    Timings,
}

// The length of a line, and that of its text.
pub const LINE: usize = 96;

pub const TEXT: usize = 50;

#[derive(Clone, Copy)]
pub struct Step {
    pub ask: Ask,
    pub who: u32,
    pub width: u32,
    pub number: u32,
    pub value: u64,
    pub code: u64,
    pub answer: u64,
}

// Other letters ask for a read.
fn ask_at(columns: &[u8]) -> Ask {
    match columns {
        [b'b', b'o', ..] => Ask::Boot,
        [b'o', b'n', ..] => Ask::On,
        [b'o', b'f', ..] => Ask::Off,
        [b'w', b'r', ..] => Ask::Write,
        [b'f', b'e', ..] => Ask::Fetch,
        [b'p', b'a', ..] => Ask::Pass,
        [b'w', b'a', ..] => Ask::Wait,
        [b's', b'h', ..] => Ask::Show,
        [b'h', b'a', ..] => Ask::Hand,
        [b'm', b'a', ..] => Ask::Main,
        [b'o', b'p', ..] => Ask::Options,
        [b's', b'r', ..] => Ask::Sram,
        [b't', b'i', ..] => Ask::Timings,
        _ => Ask::Read,
    }
}

fn digit(b: u8) -> u64 {
    match b {
        b'0'..=b'9' => (b - b'0') as u64,
        b'A'..=b'F' => (b - b'A') as u64 + 10,
        _ => 0,
    }
}

// A number with one more digit; no column has so many that one is lost.
fn longer(n: u64, base: u64, d: u64) -> u64 {
    let kept = n % 0x1000_0000_0000;
    if base == 10 {
        return kept * 10 + d % 16;
    }
    kept * 16 + d % 16
}

// Bytes that are missing count as digits 0.
fn number(columns: &[u8], at: usize, digits: usize, base: u64) -> u64 {
    let mut n: u64 = 0;
    for i in 0..digits {
        n = longer(n, base, digit(cells::byte(columns, at.saturating_add(i))));
    }
    n
}

// 0 for the CPU, 1 for the debugger, and 2 for neither, which is malformed.
fn who_at(columns: &[u8]) -> u32 {
    match cells::byte(columns, 6) {
        b'c' => 0,
        b'd' => 1,
        _ => 2,
    }
}

impl Ask {
    // Times are in decimal.
    pub(crate) fn is_decimal(self) -> bool {
        matches!(self, Ask::Pass | Ask::Wait | Ask::Hand)
    }
}

pub(crate) fn step_at(columns: &[u8]) -> Step {
    let ask = ask_at(columns);
    let base = if ask.is_decimal() { 10 } else { 16 };
    Step {
        ask,
        who: who_at(columns),
        width: (number(columns, 8, 1, 10) % 16) as u32,
        number: (number(columns, 10, 9, base) % 0x1_0000_0000) as u32,
        value: number(columns, 20, 9, base),
        code: number(columns, 30, 5, 10),
        answer: number(columns, 36, 9, base),
    }
}

pub(crate) fn call_of(step: Step) -> Call {
    let access = Access {
        who: step.who,
        width: step.width,
        address: step.number,
    };
    match step.ask {
        Ask::Boot => Call::Reset(step.number),
        Ask::On => Call::Debugger(Link::On),
        Ask::Off => Call::Debugger(Link::Off),
        Ask::Write => Call::Write(access, step.value),
        Ask::Fetch => Call::Fetch(step.number),
        Ask::Pass => Call::Time(Lapse::Pass(Micros(step.number as u64))),
        Ask::Wait => Call::Time(Lapse::Wait(Millis(step.number))),
        _ => Call::Read(access),
    }
}
