// The window onto main flash (document 01, "Calls").
#![tactic(auto)]

ghost use Rattle.std.specs.Prelude.{false, ◌≡◌, ◌+◌, leb, length, take, drop};
ghost use Rattle.map.specs.Sectors.{sectors_in, sector_start, sector_length};
ghost use Rattle.part.specs.Reads.{window_of, window_start};
ghost use Rattle.part.specs.State.{part};

use operations::fits;
use part::Record;

// A sector's part of main flash.
fn sector_part<'a>(main: &'a [u8], sector: u32) -> &'a [u8]
    requires { leb (sectors_in (length main.now)) sector ≡ false }
    ensures { (result.now ≡ take (sector_length sector) (drop (sector_start sector) main.now))
        × (result.ref_ptr.0 ≡ main.entry.ref_ptr.0)
        × (result.ref_ptr.1 ≡ main.entry.ref_ptr.1 + sector_start sector) }
{
    let start = map::sectors::sector_start(sector);
    let size = map::sectors::sector_length(sector);
    let end = start + size;
    &main[start..end]
}

// The window: a part of the lent main flash itself, or an empty part. Buffers stand one by one, since it borrows main flash alone.
pub fn window_core<'a>(
    r: Record,
    main: &'a [u8],
    otp: &[u8],
    options: &[u8],
    sram: &[u8],
    timings: &[u32],
    who: u32,
    sector: u32,
) -> &'a [u8]
    ensures { (result.now ≡ window_of timings.now
        (part r main.now otp.now options.now sram.now) who sector)
        × (result.ref_ptr.0 ≡ main.entry.ref_ptr.0)
        × (result.ref_ptr.1 ≡ main.entry.ref_ptr.1
        + window_start timings.now (part r main.now otp.now options.now sram.now) who sector) }
{
    let lengths = fits::bad_length(
        r.op,
        main.len(),
        otp.len(),
        options.len(),
        sram.len(),
        timings.len(),
    );
    let timing = time::out_of_range(timings);
    let busy = record::readout::is_busy(r.op);
    let n = map::sectors::sectors_in(main.len());
    let guarded = options::guarded(r.mark, options);
    if lengths
        | timing
        | !r.power
        | busy
        | (n <= sector)
        | (1 < who)
        | ((who == 1) & !r.debugger)
        | guarded
    {
        return &main[0..0];
    }
    sector_part(main, sector)
}
