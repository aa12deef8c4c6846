// A write to flash cells stalls while an operation runs, raises the first flag that applies, or programs them.
ghost use Rattle.std.specs.Prelude.{◌≡◌};
ghost use Rattle.part.specs.Writes.{written, flash_reply};

use map::{Place, areas};
use part::{Access, Reason, Record, Reply, Target, Written};
use record::{answers, readout};
use time::Work;

// The bytes of a write, as an offset in main flash or, from its first address on, in OTP.
fn written(a: Access, value: u64) -> Written
    ensures { result ≡ written a value }
{
    let otp = areas::OTP_BASE <= a.address;
    let base = if otp {
        areas::OTP_BASE
    } else {
        areas::MAIN_BASE
    };
    Written {
        value,
        offset: areas::offset(a.address, base),
        width: a.width,
        otp,
    }
}

// Refusal 11, or a start. The place is taken apart before 11 is asked for, where its area is still known from how it was found.
pub fn cell_write(
    timings: &[u32],
    r: Record,
    otp: &[u8],
    options: &[u8],
    place: Place,
    a: Access,
    value: u64,
) -> Reply
    ensures { result ≡ flash_reply timings.now r otp.now options.now place a value }
{
    let nwrp = options::nwrp_of(options);
    let protected = flags::protected_at(nwrp, otp, place);
    if readout::is_busy(r.op) {
        return answers::refuse(Reason::Stalled, r);
    }
    let guarded = options::guarded(r.mark, options);
    let flag = flags::program_flag(r.cr, a, protected | guarded);
    let row = registers::psize(r.cr);
    let left = time::duration(timings, row, Work::Program);
    let bytes = written(a, value);
    crate::starts::flagged_or(r, flag, Target::Bytes(bytes), left)
}
