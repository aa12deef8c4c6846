// Write: to cells of the flash memory, to registers or to the backup SRAM.
ghost use Rattle.std.specs.Prelude.{false, List, ◌≡◌, ℕ, length};
ghost use Rattle.map.specs.Areas.{area_of};
ghost use Rattle.part.specs.Refusals.{bad_width, too_big};
ghost use Rattle.part.specs.State.{leaving, part};
ghost use Rattle.part.specs.Writes.{register_reply, sram_write, write_at, write_outcome};

use crate::store::Store;
use map::Area;
use part::{Access, Answer, Reason, Record, Reply};
use record::width::Width;
use record::{answers, refusals};

// A register takes at most a word, so the value is cut to 32 bits without loss.
fn write_register(
    timings: &[u32],
    r: Record,
    len: usize,
    options: &[u8],
    offset: u32,
    store: Store,
) -> Reply
    ensures { result ≡ register_reply timings.now r len options.now offset store.access store.value }
{
    let width = store.access.width;
    if refusals::misaligned(offset, Width { bytes: width }) {
        return answers::refuse(Reason::BadRegisterAccess, r);
    }
    let low = (store.value % 0x1_0000_0000) as u32;
    register_writes::register_write(timings, r, len, options, offset, width, low)
}

// The backup SRAM: closed to a write as to a read, or stored at once.
fn write_sram(
    r: Record,
    options: &[u8],
    sram: &mut [u8],
    offset: u32,
    a: Access,
    value: u64,
) -> Reply
    ensures { (main otp : List ℕ) → leaving result main otp options.now sram.new
        ≡ sram_write (part r main otp options.now sram.old) offset a value }
{
    if options::guarded(r.mark, options) {
        return answers::refuse(Reason::ClosedAccess, r);
    }
    cells::store(sram, offset, a.width, value);
    answers::reply(Answer::Done(0), r)
}

fn write_at(
    timings: &[u32],
    r: Record,
    main: &[u8],
    otp: &[u8],
    options: &[u8],
    sram: &mut [u8],
    area: Area,
    store: Store,
) -> Reply
    ensures { leaving result main.now otp.now options.now sram.new
        ≡ write_at timings.now (part r main.now otp.now options.now sram.old) area store.access store.value }
{
    match area {
        Area::Flash(place) => {
            operations::programs::cell_write(
                timings,
                r,
                otp,
                options,
                place,
                store.access,
                store.value,
            )
        }
        Area::Registers(offset) => {
            write_register(timings, r, main.len(), options, offset, store)
        }
        Area::Sram(offset) => write_sram(r, options, sram, offset, store.access, store.value),
        Area::Outside => answers::refuse(Reason::OutsideMap, r),
    }
}

// As in a read, the area is asked last. Buffers stand one by one: a struct would have all four lent as the SRAM is, to be changed, and this changes no
// other cell.
pub fn write(
    timings: &[u32],
    r: Record,
    main: &[u8],
    otp: &[u8],
    options: &[u8],
    sram: &mut [u8],
    a: Access,
    value: u64,
) -> Reply
    requires { (bad_width a.width ≡ false) × (too_big a.width value ≡ false) }
    ensures { leaving result main.now otp.now options.now sram.new
        ≡ write_outcome timings.now (part r main.now otp.now options.now sram.old)
        (area_of (length main.now) a.address a.width) a value }
{
    let unconnected = (a.who == 1) & !r.debugger;
    if !r.power {
        return answers::refuse(Reason::NoPower, r);
    }
    if unconnected {
        return answers::refuse(Reason::NotConnected, r);
    }
    let area = map::areas::area_of(main.len(), a.address, a.width);
    write_at(
        timings,
        r,
        main,
        otp,
        options,
        sram,
        area,
        Store { access: a, value },
    )
}
