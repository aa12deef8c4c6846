// Every call with the record by value and the cells and lines lent (document 01, "Calls"; document 02, note 5).
#![tactic(auto)]

ghost use Rattle.std.specs.Prelude.{false, ◌≡◌};
ghost use Rattle.cached.specs.Device.{through_lines, cached_step};
ghost use Rattle.lined.specs.Lent.{device_of, served_in, SameArrays};
ghost use Rattle.part.specs.Calls.{performed};
ghost use Rattle.part.specs.Lent.{part_of, SameBuffers};
ghost use Rattle.part.specs.Refusals.{length_refused, malformed};

use lined::lent::Lines;
use operations::fits;
use part::{Call, CellsMut, Reason, Record, Reply};
use record::{answers, refusals};

// Refusal 5.
fn malformed(c: Call) -> bool
    ensures { result ≡ malformed c }
{
    match c {
        Call::Reset(boot) => 2 < boot,
        Call::Debugger(_) => false,
        Call::Read(a) => {
            let odd = refusals::bad_width(a.width);
            (1 < a.who) | odd
        }
        Call::Write(a, value) => {
            let odd = refusals::bad_width(a.width);
            let big = refusals::too_big(a.width, value);
            (1 < a.who) | odd | big
        }
        Call::Time(_) => false,
        Call::Fetch(_) => false,
    }
}

// What a call does that refusals 1, 2 and 5 let through, with caches or without: a job looks at these once, before its first call. The calls that jobs
// make most come first, which leaves the compiler more registers for them.
pub fn perform(
    r: Record,
    cells: &mut CellsMut<'_>,
    lines: &mut Lines<'_>,
    timings: &[u32],
    scrap: &[u8],
    c: Call,
    cached: bool,
) -> Reply
    requires { (malformed c ≡ false) × (length_refused timings.now (part_of r cells.old) ≡ false) }
    ensures same { SameBuffers cells.old cells.new × SameArrays lines.old lines.new }
    ensures served { served_in result cells.new lines.new
        ≡ through_lines cached c (device_of r cells.old lines.old) (performed timings.now scrap.now c (part_of r cells.old)) }
{
    match c {
        Call::Read(a) => {
            let told = access::reads::read(r, cells.shared(), a);
            answers::reply(
                lined::on_read(cached, r.acr, &mut *cells.main, lines, told, a),
                r,
            )
        }
        Call::Write(a, value) => {
            let out = access::writes::write(
                timings,
                r,
                &mut *cells.main,
                &mut *cells.otp,
                &mut *cells.options,
                cells.sram,
                a,
                value,
            );
            lined::on_write(cached, r.acr, lines, out.answer, a, value);
            out
        }
        Call::Time(t) => lapses::lapsed(r, cells, lines, t, cached),
        Call::Fetch(address) => {
            let told = access::reads::fetch(r, &mut *cells.main, &mut *cells.options, address);
            answers::reply(
                lined::on_fetch(cached, r.acr, &mut *cells.main, lines, told, address),
                r,
            )
        }
        Call::Debugger(link) => resets::debugger(r, &mut *cells.options, link),
        Call::Reset(boot) => {
            let out = resets::reset(r, cells, scrap, boot);
            lined::on_reset(cached, out.answer, lines);
            out
        }
    }
}

// Any call: its answer, the record after it, and what it leaves in the lent cells and lines.
pub fn call(
    r: Record,
    cells: &mut CellsMut<'_>,
    lines: &mut Lines<'_>,
    timings: &[u32],
    scrap: &[u8],
    c: Call,
) -> Reply
    ensures same { SameBuffers cells.old cells.new × SameArrays lines.old lines.new }
    ensures served { served_in result cells.new lines.new
        ≡ cached_step timings.now scrap.now c (device_of r cells.old lines.old) }
{
    if fits::bad_length(
        r.op,
        cells.main.len(),
        cells.otp.len(),
        cells.options.len(),
        cells.sram.len(),
        timings.len(),
    ) {
        return answers::refuse(Reason::BadLength, r);
    }
    if time::out_of_range(timings) {
        return answers::refuse(Reason::BadTiming, r);
    }
    if malformed(c) {
        return answers::refuse(Reason::Malformed, r);
    }
    perform(r, cells, lines, timings, scrap, c, true)
}
