// The job run on the part without caches, for a host that asks which answers come from lines. Its archive is its own: with two callers of the run in
// one archive the compiler keeps it out of line, and both are slower.
#![tactic(auto)]

ghost use Rattle.std.specs.Prelude.{◌≡◌};
ghost use Rattle.job.specs.Job.{job_left, run_uncached};
ghost use Rattle.part.specs.State.{part, fresh};

// Runs a job as `flash_job_run` does, on the uncached part: its reads and fetches take the cells. C takes the
// result as a number, and lends each buffer by itself.
pub fn flash_job_run_uncached(
    main: &mut [u8],
    otp: &mut [u8],
    options: &mut [u8],
    sram: &mut [u8],
    timings: &[u8],
    scrap: &[u8],
    job: &[u8],
    answers: &mut [u8],
) -> u32
    ensures { job_left result main.new otp.new options.new sram.new answers.new
        ≡ run_uncached (part fresh main.old otp.old options.old sram.old)
        timings.now scrap.now job.now answers.old }
{
    flash_job::code_of(flash_job::run_by(
        main, otp, options, sram, timings, scrap, job, answers, false,
    ))
}
