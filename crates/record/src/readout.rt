// What the six registers read: stored flags and fields, with BSY, STRT and OPTSTRT by what runs and LOCK and OPTLOCK by the locks.
ghost use Rattle.std.specs.Prelude.{◌≡◌};
ghost use Rattle.part.specs.State.{is_busy};
ghost use Rattle.part.specs.Registers.{strt, optstrt, sr_of, cr_of, optcr_of, control_of, register_of};

use part::{Record, Running, Target};
use registers::{LockOf, Register};

pub fn is_busy(op: Option<Running>) -> bool
    ensures { result ≡ is_busy op }
{
    op.is_some()
}

fn strt(op: Option<Running>) -> bool
    ensures { result ≡ strt op }
{
    op.is_some_and(|running| matches!(running.target, Target::Sector(_) | Target::Main(_)))
}

fn optstrt(op: Option<Running>) -> bool
    ensures { result ≡ optstrt op }
{
    op.is_some_and(|running| matches!(running.target, Target::Options | Target::Regression(..)))
}

fn sr_of(r: Record) -> u32
    ensures { result ≡ sr_of r }
{
    (r.sr & registers::SR_FLAGS) | if is_busy(r.op) { registers::BSY } else { 0 }
}

// CR and OPTCR differ in what is stored, the lock, the masks and the test for what runs: one function for both would take all of them.
fn cr_of(r: Record) -> u32
    ensures { result ≡ cr_of r }
{
    let unlocked = r.lock.is_open();
    let lock = if unlocked { 0 } else { registers::LOCK };
    let started = if strt(r.op) { registers::STRT } else { 0 };
    (r.cr & registers::CR_FIELDS) | (lock | started)
}

fn optcr_of(r: Record) -> u32
    ensures { result ≡ optcr_of r }
{
    let unlocked = r.optlock.is_open();
    let lock = if unlocked { 0 } else { registers::OPTLOCK };
    let started = if optstrt(r.op) { registers::OPTSTRT } else { 0 };
    (r.optcr & registers::OPTCR_FIELDS) | (lock | started)
}

pub fn control_of(which: LockOf, r: Record) -> u32
    ensures { result ≡ control_of which r }
{
    match which {
        LockOf::Cr => cr_of(r),
        LockOf::Optcr => optcr_of(r),
    }
}

// KEYR and OPTKEYR read 0.
pub fn register_of(r: Record, register: Register) -> u32
    ensures { result ≡ register_of r register }
{
    match register {
        Register::Acr => r.acr & registers::ACR_BITS,
        Register::Sr => sr_of(r),
        Register::Key(_) => 0,
        Register::Control(which) => control_of(which, r),
    }
}
