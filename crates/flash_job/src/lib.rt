// The job run (document 01, "The job file"): from bytes in to bytes out.
#![tactic(auto)]

ghost use Rattle.std.specs.Prelude.{◌≡◌};
ghost use Rattle.flash_job.specs.Refusals.{code_of};
ghost use Rattle.job.specs.Job.{job_left, run_by, run_job};
ghost use Rattle.part.specs.State.{part, fresh};

use jobfile::timings;
use part::CellsMut;

mod refusals;
mod refused;
mod run;

pub use refused::JobRefusal;

// 0 for a job that ran, or the number of its refusal.
pub fn code_of(outcome: Result<(), JobRefusal>) -> u32
    ensures { result ≡ code_of outcome }
{
    match outcome {
        Ok(()) => 0,
        Err(why) => why as u32,
    }
}

// A job on the lent part, with caches or without. An archive has one caller of it, so that the whole run is compiled in line. Buffers stand one by one,
// as C lends them.
pub fn run_by(
    main: &mut [u8],
    otp: &mut [u8],
    options: &mut [u8],
    sram: &mut [u8],
    timings: &[u8],
    scrap: &[u8],
    job: &[u8],
    answers: &mut [u8],
    cached: bool,
) -> Result<(), JobRefusal>
    ensures { job_left (code_of result) main.new otp.new options.new sram.new answers.new
        ≡ run_by cached (part fresh main.old otp.old options.old sram.old)
        timings.now scrap.now job.now answers.old }
{
    if refusals::bad_buffers(
        main.len(),
        otp.len(),
        options.len(),
        sram.len(),
        timings.len(),
    ) {
        return Err(JobRefusal::BadBuffers);
    }
    let mut micros = [0u32; 24];
    timings::load_timings(&mut micros, timings);
    if time::out_of_range(&micros) {
        return Err(JobRefusal::BadTimings);
    }
    let n = refusals::checked_count(job, answers.len())?;
    let mut cells = CellsMut {
        main,
        otp,
        options,
        sram,
    };
    run::run_calls(&mut cells, &micros, scrap, job, answers, n, cached);
    Ok(())
}

// Runs a job on the lent part, from a fresh record and free lines of its own. The result is 0, or the number of the refusal of the whole job, which
// then changes nothing: C takes it as a number.
pub fn flash_job_run(
    main: &mut [u8],
    otp: &mut [u8],
    options: &mut [u8],
    sram: &mut [u8],
    timings: &[u8],
    scrap: &[u8],
    job: &[u8],
    answers: &mut [u8],
) -> u32
    ensures { job_left result main.new otp.new options.new sram.new answers.new
        ≡ run_job (part fresh main.old otp.old options.old sram.old)
        timings.now scrap.now job.now answers.old }
{
    code_of(run_by(main, otp, options, sram, timings, scrap, job, answers, true))
}
