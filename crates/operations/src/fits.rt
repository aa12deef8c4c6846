// Whether the lent buffers fit a part, and hold what runs.
ghost use Rattle.std.specs.Prelude.{◌≡◌};
ghost use Rattle.part.specs.Operations.{target_outside, operation_outside};
ghost use Rattle.part.specs.Refusals.{bad_length};

use part::{Running, Target};

// A program's bytes or a sector that the buffers do not hold, or a mass erase or regression begun under another length.
fn target_outside(target: Target, main: usize, otp: usize) -> bool
    ensures { result ≡ target_outside target main otp }
{
    match target {
        Target::Bytes(w) => {
            let held = if w.otp { otp } else { main };
            held < w.offset as usize + w.width as usize
        }
        Target::Sector(k) => map::sectors::sectors_in(main) <= k,
        Target::Main(len) => len != main,
        Target::Options => false,
        Target::Regression(len, _) => len != main,
    }
}

fn operation_outside(op: Option<Running>, main: usize, otp: usize) -> bool
    ensures { result ≡ operation_outside op main otp }
{
    match op {
        None => false,
        Some(running) => target_outside(running.target, main, otp),
    }
}

// Refusal 1. The five lengths are those of the lent buffers and timings.
pub fn bad_length(
    op: Option<Running>,
    main: usize,
    otp: usize,
    options: usize,
    sram: usize,
    timings: usize,
) -> bool
    ensures { result ≡ bad_length op main otp options sram timings }
{
    let n = map::sectors::sectors_in(main);
    let outside = operation_outside(op, main, otp);
    (n == 0)
        | (otp != map::areas::OTP_LENGTH)
        | (options != map::areas::OPTION_LENGTH)
        | (sram != map::areas::SRAM_LENGTH)
        | (timings != 24)
        | outside
}
