// The calls of a sound job, one after the other, from a fresh record and free lines.
ghost use Rattle.std.specs.Prelude.{false, ◌≡◌, ◌+◌, ◌*◌, ◌<◌, ◌≤◌, length};
ghost use Rattle.flash_job.specs.Run.{call_at, answered};
ghost use Rattle.job.specs.Job.{most_calls, is_malformed, read_calls, calls_or, job_left, ran_job};
ghost use Rattle.cached.specs.Device.{step_by};
ghost use Rattle.lined.specs.Lent.{device_of, SameArrays};
ghost use Rattle.part.specs.Lent.{part_of, SameBuffers};
ghost use Rattle.part.specs.Refusals.{length_refused, malformed};
ghost use Rattle.part.specs.State.{fresh};
ghost use Rattle.time.specs.Timings.{out_of_range};

use jobfile::head::{HEAD, RECORD};
use jobfile::{answers, records};
use lined::lent::Lines;
use part::{CellsMut, Record};

pub(crate) const ANSWER: usize = 16;

// The call of record i. None of the refusals 1, 2 and 5 applies to a call of a job that was checked: lengths and timings stay as they are, what a
// call starts lies inside, and every record is sound.
fn one_call(
    r: Record,
    cells: &mut CellsMut<'_>,
    lines: &mut Lines<'_>,
    timings: &[u32],
    scrap: &[u8],
    job: &[u8],
    answers: &mut [u8],
    i: usize,
    cached: bool,
) -> Record
    requires { (i < most_calls) × (7 + 16 * i + 16 ≤ length job.now) × (16 * i + 16 ≤ length answers.old) × (out_of_range timings.now ≡ false)
        × (length_refused timings.now (part_of r cells.old) ≡ false) × (malformed (call_at job.now i) ≡ false) }
    ensures same { SameBuffers cells.old cells.new × SameArrays lines.old lines.new }
    ensures called { let served = step_by cached timings.now scrap.now (call_at job.now i) (device_of r cells.old lines.old) in
        (device_of result cells.new lines.new ≡ served.device) × (answers.new ≡ answered answers.old i served.answer) }
{
    let from = HEAD + RECORD * i;
    let to = from + RECORD;
    let start = ANSWER * i;
    let end = start + ANSWER;
    let c = records::call_in(&job[from..to]);
    let reply = calls::perform(r, cells, lines, timings, scrap, c, cached);
    answers::put_answer(&mut answers[start..end], reply.answer);
    reply.rec
}

pub(crate) fn run_calls(
    cells: &mut CellsMut<'_>,
    timings: &[u32],
    scrap: &[u8],
    job: &[u8],
    answers: &mut [u8],
    count: u32,
    cached: bool,
)
    requires { (count ≤ most_calls) × (7 + 16 * count ≤ length job.now) × (16 * count ≤ length answers.old) × (out_of_range timings.now ≡ false)
        × (is_malformed (read_calls job.now 0 count) ≡ false)
        × (length_refused timings.now (part_of fresh cells.old) ≡ false) }
    ensures same { SameBuffers cells.old cells.new }
    ensures ran { job_left 0 cells.new.main.now cells.new.otp.now cells.new.options.now cells.new.sram.now answers.new
        ≡ ran_job cached (part_of fresh cells.old) timings.now scrap.now (calls_or (read_calls job.now 0 count)) answers.old }
{
    let mut r = record::fields::fresh();
    let mut tags = [0u32; 72];
    let mut bytes = [0u8; 1152];
    let mut lines = Lines {
        tags: &mut tags,
        bytes: &mut bytes,
    };
    for i in 0..count as usize {
        r = one_call(
            r, cells, &mut lines, timings, scrap, job, answers, i, cached,
        );
    }
}
