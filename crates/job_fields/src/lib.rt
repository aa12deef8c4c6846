// The fields of a record of a job (document 01, "The job file"): the table of what each kind uses of them, the call that they say, and the
// fields of a call.
#![tactic(auto)]

ghost use Rattle.std.specs.Prelude.{◌≡◌};
ghost use Rattle.job.specs.Kinds.{number_of};
ghost use Rattle.job.specs.Record.{fields, uses_of, out_of, malformed_by, malformed_record, call_of, fields_of, encoded};

use job::kinds::Kind;
use job::{Fields, Uses, Widths};
use part::{Access, Call, Lapse, Link};
use record::refusals;
use time::{Micros, Millis};

// An address or a time: any number of 32 bits.
const ANY: u32 = 0xFFFF_FFFF;

// What a kind uses that takes no field.
const NOTHING: Uses = Uses {
    who: 0,
    width: Widths::Unused,
    number: 0,
    value: false,
};

// The table. Kinds are asked for one after the other: of a `match` over all of them the check of a record makes a jump through addresses, which takes
// a quarter more.
fn uses_of(kind: Kind) -> Uses
    ensures { result ≡ uses_of kind }
{
    if (kind == Kind::On) | (kind == Kind::Off) {
        NOTHING
    } else if kind == Kind::Reset {
        Uses {
            number: 2,
            ..NOTHING
        }
    } else if kind == Kind::Read {
        Uses {
            who: 1,
            width: Widths::Any,
            number: ANY,
            ..NOTHING
        }
    } else if kind == Kind::Write {
        Uses {
            who: 1,
            width: Widths::Any,
            number: ANY,
            value: true,
        }
    } else if (kind == Kind::Pass) | (kind == Kind::Wait) {
        Uses {
            number: ANY,
            ..NOTHING
        }
    } else {
        Uses {
            width: Widths::Word,
            number: ANY,
            ..NOTHING
        }
    }
}

fn out_of(widths: Widths, width: u32) -> bool
    ensures { result ≡ out_of widths width }
{
    match widths {
        Widths::Unused => width != 0,
        Widths::Any => refusals::bad_width(width),
        Widths::Word => width != 4,
    }
}

// A field that breaks what the table says of it.
fn malformed_by(uses: Uses, f: Fields) -> bool
    ensures { result ≡ malformed_by uses f }
{
    let wrong_value = if uses.value {
        refusals::too_big(f.width, f.value)
    } else {
        f.value != 0
    };
    (uses.who < f.who) | (uses.number < f.number) | wrong_value || out_of(uses.width, f.width)
}

// A record of no kind, or a field that breaks what the table says of it. Most records are reads and writes: their rows are known when this is
// compiled, so that no test is left which a row decides, and the others are not asked for these kinds again.
pub fn malformed_fields(f: Fields) -> bool
    ensures { result ≡ malformed_record f }
{
    if f.unused != 0 {
        return true;
    }
    let Ok(kind) = Kind::try_from(f.kind) else {
        return true;
    };
    if kind == Kind::Read {
        return malformed_by(uses_of(Kind::Read), f);
    }
    if kind == Kind::Write {
        return malformed_by(uses_of(Kind::Write), f);
    }
    malformed_by(uses_of(kind), f)
}

// The call that sound fields say.
pub fn call_of(f: Fields) -> Call
    ensures { result ≡ call_of f }
{
    let access = Access {
        who: f.who,
        width: f.width,
        address: f.number,
    };
    match Kind::try_from(f.kind) {
        Ok(Kind::Reset) => Call::Reset(f.number),
        Ok(Kind::On) => Call::Debugger(Link::On),
        Ok(Kind::Off) => Call::Debugger(Link::Off),
        Ok(Kind::Read) => Call::Read(access),
        Ok(Kind::Write) => Call::Write(access, f.value),
        Ok(Kind::Pass) => Call::Time(Lapse::Pass(Micros(f.number as u64))),
        Ok(Kind::Wait) => Call::Time(Lapse::Wait(Millis(f.number))),
        Ok(Kind::Fetch) | Err(_) => Call::Fetch(f.number),
    }
}

// A call that is no access has a number alone.
fn numbered(kind: Kind, number: u32) -> Fields
    ensures { result ≡ fields (number_of kind) 0 0 0 number 0 }
{
    Fields {
        kind: kind as u32,
        who: 0,
        width: 0,
        unused: 0,
        number,
        value: 0,
    }
}

// The fields of an access.
fn accessed(kind: Kind, a: Access, value: u64) -> Fields
    ensures { result ≡ fields (number_of kind) a.who a.width 0 a.address value }
{
    Fields {
        who: a.who,
        width: a.width,
        value,
        ..numbered(kind, a.address)
    }
}

// The fields of a call, where a record has room for its number: a pass may be longer than 32 bits.
pub fn fields_of(c: Call) -> Option<Fields>
    ensures { result ≡ encoded (fields_of c) }
{
    Some(match c {
        Call::Reset(boot) => numbered(Kind::Reset, boot),
        Call::Debugger(Link::On) => numbered(Kind::On, 0),
        Call::Debugger(Link::Off) => numbered(Kind::Off, 0),
        Call::Read(a) => accessed(Kind::Read, a, 0),
        Call::Write(a, value) => accessed(Kind::Write, a, value),
        Call::Time(Lapse::Pass(us)) => numbered(Kind::Pass, u32::try_from(us.0).ok()?),
        Call::Time(Lapse::Wait(ms)) => numbered(Kind::Wait, ms.0),
        Call::Fetch(address) => Fields {
            width: 4,
            ..numbered(Kind::Fetch, address)
        },
    })
}
