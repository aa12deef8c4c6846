// The record of a rehearsal part, its calls and its answers (document 01, "Calls").
#![tactic(auto)]

ghost use Rattle.std.specs.Prelude.{◌≡◌};

use lock::Lock;
use time::{Micros, Millis};

// Bytes that are being programmed: what was written, their place, and the buffer that holds them.
#[derive(Clone, Copy)]
pub struct Written {
    pub value: u64,
    pub offset: u32,
    pub width: u32,
    pub otp: bool,
}

// What a running operation changes when its last microsecond passes.
#[derive(Clone, Copy)]
pub enum Target {
    Bytes(Written),
    Sector(u32),
    // Mass erase and regression: with main flash's length when they began.
    Main(usize),
    Options,
    // Its option time too, the last part of it: until then main flash is erased.
    Regression(usize, Micros),
}

#[derive(Clone, Copy)]
pub struct Running {
    pub target: Target,
    pub left: Micros,
}

// All that a part holds beside its cells. Of SR, CR and OPTCR only flags and fields are stored: BSY, STRT and OPTSTRT follow
// from the operation, LOCK and OPTLOCK from the locks. Each lock stands behind its register: two small neighbours are copied as one number.
#[derive(Clone, Copy)]
pub struct Record {
    pub acr: u32,
    pub sr: u32,
    pub cr: u32,
    pub lock: Lock,
    pub optcr: u32,
    pub optlock: Lock,
    // What runs, if anything does.
    pub op: Option<Running>,
    pub power: bool,
    pub debugger: bool,
    // Document 01's intrusion mark: since the last reset a debugger was connected, or the part was not booted from flash.
    pub mark: bool,
}

// Who is 0 for the CPU and 1 for the debugger: a number, since callers give it, and any above 1 gets refusal 5.
#[derive(Clone, Copy)]
pub struct Access {
    pub who: u32,
    pub width: u32,
    pub address: u32,
}

// What the debugger call asks for: to connect, or to disconnect.
#[derive(Clone, Copy)]
pub enum Link {
    On,
    Off,
}

// The calls that let time pass: all of it, or what an operation has left, up to a limit.
#[derive(Clone, Copy)]
pub enum Lapse {
    Pass(Micros),
    Wait(Millis),
}

#[derive(Clone, Copy)]
pub enum Call {
    // Where the part boots from: a number, since callers give it, and any above 2 gets refusal 5.
    Reset(u32),
    Debugger(Link),
    Read(Access),
    Write(Access, u64),
    Time(Lapse),
    // An instruction fetch of four bytes by the CPU, from an address.
    Fetch(u32),
}

// Document 01's refusals of a call that carry no value, by their numbers.
#[derive(Clone, Copy)]
pub enum Reason {
    BadLength = 1,
    BadTiming = 2,
    Malformed = 5,
    OutsideMap = 7,
    TooLong = 8,
    BadRegisterAccess = 9,
    NoPower = 10,
    Stalled = 11,
    Locked = 12,
    ClosedAccess = 13,
    WrongKey = 14,
    NotConnected = 15,
    ShutByLevel2 = 16,
    NoneLeft = 19,
    ShortScrap = 21,
}

#[derive(Clone, Copy)]
pub enum Answer {
    // With a read's bytes, a wait's microseconds, or 0.
    Done(u64),
    Refused(Reason),
    // The flag that rose, as its bit of SR.
    Flagged(u32),
    // The time that passed.
    Expired(Micros),
}

// What a call that changes no cell answers, and the record after it.
#[derive(Clone, Copy)]
pub struct Reply {
    pub answer: Answer,
    pub rec: Record,
}

// The cells that a caller lends to be read: main flash, OTP, the option cells and the backup SRAM.
#[derive(Clone, Copy)]
pub struct Cells<'a> {
    pub main: &'a [u8],
    pub otp: &'a [u8],
    pub options: &'a [u8],
    pub sram: &'a [u8],
}

// The same, lent to be changed. One buffer of them is lent on for reading as `&mut *cells.main`: proofs then know that it comes back as it was.
#[derive(Drop)]
pub struct CellsMut<'a> {
    pub main: &'a mut [u8],
    pub otp: &'a mut [u8],
    pub options: &'a mut [u8],
    pub sram: &'a mut [u8],
}

impl CellsMut<'_> {
    pub fn shared(&self) -> Cells<'_>
        ensures main { result.main.now ≡ self.now.main.now }
        ensures otp { result.otp.now ≡ self.now.otp.now }
        ensures options { result.options.now ≡ self.now.options.now }
        ensures sram { result.sram.now ≡ self.now.sram.now }
    {
        Cells {
            main: self.main,
            otp: self.otp,
            options: self.options,
            sram: self.sram,
        }
    }
}
