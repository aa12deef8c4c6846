// A record made anew from its fields. A copy of a whole record takes the bytes between its fields along, from one call to the next, in pieces
// that a processor is slow to read back; a record made field by field has nothing to take along.
ghost use Rattle.std.specs.Prelude.{◌≡◌};

use part::{Record, Running, Target, Written};

fn same_target(t: Target) -> Target
    ensures { result ≡ t }
{
    match t {
        Target::Bytes(w) => Target::Bytes(Written {
            value: w.value,
            offset: w.offset,
            width: w.width,
            otp: w.otp,
        }),
        Target::Sector(k) => Target::Sector(k),
        Target::Main(length) => Target::Main(length),
        Target::Options => Target::Options,
        Target::Regression(length, option) => Target::Regression(length, option),
    }
}

fn same_operation(op: Option<Running>) -> Option<Running>
    ensures { result ≡ op }
{
    match op {
        None => None,
        Some(running) => Some(Running {
            target: same_target(running.target),
            left: running.left,
        }),
    }
}

pub(crate) fn renewed(r: Record) -> Record
    ensures { result ≡ r }
{
    Record {
        acr: r.acr,
        sr: r.sr,
        cr: r.cr,
        lock: r.lock,
        optcr: r.optcr,
        optlock: r.optlock,
        op: same_operation(r.op),
        power: r.power,
        debugger: r.debugger,
        mark: r.mark,
    }
}
