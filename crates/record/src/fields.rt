// A record with one thing changed, and the fresh record.
ghost use Rattle.std.specs.Prelude.{◌≡◌};
ghost use Rattle.part.specs.State.{fresh, with_acr, with_sr, with_cr, with_optcr, with_lock, lock_in, with_op, with_debugger};

use lock::{Lock, LockState};
use part::{Record, Running};
use registers::LockOf;

// No power, no debugger, no mark, nothing running, registers 0.
pub fn fresh() -> Record
    ensures { result ≡ fresh }
{
    let open = Lock {
        state: LockState::Open,
    };
    Record {
        acr: 0,
        sr: 0,
        cr: 0,
        lock: open,
        optcr: 0,
        optlock: open,
        op: None,
        power: false,
        debugger: false,
        mark: false,
    }
}

pub fn with_acr(r: Record, v: u32) -> Record
    ensures { result ≡ with_acr r v }
{
    Record { acr: v, ..r }
}

pub fn with_sr(r: Record, v: u32) -> Record
    ensures { result ≡ with_sr r v }
{
    Record { sr: v, ..r }
}

pub fn with_cr(r: Record, v: u32) -> Record
    ensures { result ≡ with_cr r v }
{
    Record { cr: v, ..r }
}

pub fn with_optcr(r: Record, v: u32) -> Record
    ensures { result ≡ with_optcr r v }
{
    Record { optcr: v, ..r }
}

pub fn with_lock(which: LockOf, r: Record, lock: Lock) -> Record
    ensures { result ≡ with_lock which r lock }
{
    match which {
        LockOf::Cr => Record { lock, ..r },
        LockOf::Optcr => Record { optlock: lock, ..r },
    }
}

pub fn lock_in(which: LockOf, r: Record) -> Lock
    ensures { result ≡ lock_in which r }
{
    match which {
        LockOf::Cr => r.lock,
        LockOf::Optcr => r.optlock,
    }
}

pub fn with_op(r: Record, op: Option<Running>) -> Record
    ensures { result ≡ with_op r op }
{
    Record { op, ..r }
}

pub fn with_debugger(r: Record, on: bool, mark: bool) -> Record
    ensures { result ≡ with_debugger r on mark }
{
    Record {
        debugger: on,
        mark,
        ..r
    }
}
