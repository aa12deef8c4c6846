// Microseconds and milliseconds as types of their own, and the 24 timings (document 01, "Time").
#![tactic(auto)]

ghost use Rattle.std.specs.Prelude.{◌≡◌, ◌+◌, ◌*◌, get_or};
ghost use Rattle.time.specs.Units.{to_micros};
ghost use Rattle.time.specs.Timings.{out_of_range, column, duration, regression_time, sector_work};

// The most that a pass and a wait take, in microseconds and in milliseconds, and the most that a timing may be, in microseconds.
pub const LONGEST_PASS: u64 = 120_000_000;

pub const LONGEST_WAIT: u32 = 120_000;

const LONGEST_TIMING: u32 = 60_000_000;

// A duration.
#[derive(Clone, Copy)]
pub struct Micros(pub u64);

// A waiting limit.
#[derive(Clone, Copy)]
pub struct Millis(pub u32);

impl Millis {
    pub fn micros(self) -> Micros
        ensures { result ≡ to_micros self }
    {
        Micros(self.0 as u64 * 1000)
    }
}

// The columns of the timings.
#[derive(Clone, Copy)]
pub enum Work {
    Program = 0,
    Erase16 = 1,
    Erase64 = 2,
    Erase128 = 3,
    MassErase = 4,
    Options = 5,
}

// Every timing is looked at: without an early exit the loop is vectorised. (The proof of the same by `fold` does not close.)
pub fn out_of_range(timings: &[u32]) -> bool
    ensures { result ≡ out_of_range timings.now }
{
    let mut bad = false;
    for &t in timings {
        bad |= (t < 1) | (LONGEST_TIMING < t);
    }
    bad
}

// The number of a row and a column; 0 past the end of the timings.
fn timing(timings: &[u32], row: u32, work: Work) -> u32
    ensures { result ≡ get_or timings.now (row * 6 + column work) 0 }
{
    timings
        .get(row as usize * 6 + work as usize)
        .copied()
        .unwrap_or(0)
}

pub fn duration(timings: &[u32], row: u32, work: Work) -> Micros
    ensures { result ≡ duration timings.now row work }
{
    Micros(timing(timings, row, work) as u64)
}

pub fn regression_time(timings: &[u32], row: u32) -> Micros
    ensures { result ≡ regression_time timings.now row }
{
    let erase = duration(timings, row, Work::MassErase);
    let option = duration(timings, row, Work::Options);
    Micros(erase.0 + option.0)
}

// The erase column of a sector: 0 to 3 have 16 KiB, 4 has 64 KiB, the others 128 KiB.
pub fn sector_work(sector: u32) -> Work
    ensures { result ≡ sector_work sector }
{
    match sector {
        0..=3 => Work::Erase16,
        4 => Work::Erase64,
        _ => Work::Erase128,
    }
}
