// Read, and the instruction fetch.
ghost use Rattle.std.specs.Prelude.{false, cond, [], ◌≡◌, length};
ghost use Rattle.cells.specs.Bytes.{little};
ghost use Rattle.map.specs.Areas.{area_of};
ghost use Rattle.map.specs.declared.Place.TheVariants.{Main};
ghost use Rattle.part.specs.Lent.{part_seen};
ghost use Rattle.part.specs.Reads.{flash_answer, register_answer, sram_answer, read_at, read_answer, fetch_answer};
ghost use Rattle.part.specs.Refusals.{bad_width};
ghost use Rattle.part.specs.Registers.{register_of};
ghost use Rattle.part.specs.declared.Answer.TheVariants.{Done, Refused};
ghost use Rattle.part.specs.declared.Reason.TheVariants.{ClosedAccess};
ghost use Rattle.part.specs.State.{part};
ghost use Rattle.registers.specs.Fields.{register_at};
ghost use Rattle.registers.specs.Words.{lanes};

use map::areas::MAIN_BASE;
use map::{Area, Place};
use part::{Access, Answer, Cells, Reason, Record};
use record::width::Width;
use record::{readout, refusals};

// System memory reads FF throughout.
fn system_value(width: Width) -> u64
    ensures { result ≡ little (λ i. 255) 0 width.bytes }
{
    match width.bytes {
        1 => 0xFF,
        2 => 0xFFFF,
        4 => 0xFFFF_FFFF,
        _ => 0xFFFF_FFFF_FFFF_FFFF,
    }
}

// What cells hold, unless read protection closes them.
fn unless_closed(closed: bool, value: u64) -> Answer
    ensures { result ≡ cond closed (Refused ClosedAccess) (Done value) }
{
    if closed {
        return Answer::Refused(Reason::ClosedAccess);
    }
    Answer::Done(value)
}

fn register_value(r: Record, offset: u32, width: u32) -> u64
    ensures { result ≡ lanes (register_of r (register_at offset)) width offset }
{
    let word = readout::register_of(r, registers::register_at(offset));
    registers::lanes(word, width, offset) as u64
}

// Cells of the flash memory: stalled while busy, closed by read protection, or their value. Main flash and OTP are closed by the mark above level
// 0, and option cells by level 2.
fn flash_answer(r: Record, cells: Cells<'_>, place: Place, width: Width) -> Answer
    ensures { result ≡ flash_answer r cells.entry.main.now cells.entry.otp.now cells.entry.options.now place width.bytes }
{
    if readout::is_busy(r.op) {
        return Answer::Refused(Reason::Stalled);
    }
    let guarded = options::guarded(r.mark, cells.options);
    match place {
        Place::Main(offset) => unless_closed(
            guarded,
            cells::value_at(cells.main, offset, width.bytes),
        ),
        Place::System(_) => Answer::Done(system_value(width)),
        Place::Otp(offset) => unless_closed(
            guarded,
            cells::value_at(cells.otp, offset, width.bytes),
        ),
        Place::SystemAndOtp(offset) => {
            unless_closed(guarded, cells::mixed_value(cells.otp, offset, width.bytes))
        }
        Place::OptionCells(offset) => {
            let level = options::level_of(cells.options);
            unless_closed(
                level == 2,
                cells::value_at(cells.options, offset, width.bytes),
            )
        }
    }
}

fn register_answer(r: Record, offset: u32, width: Width) -> Answer
    ensures { result ≡ register_answer r offset width.bytes }
{
    if refusals::misaligned(offset, width) {
        return Answer::Refused(Reason::BadRegisterAccess);
    }
    Answer::Done(register_value(r, offset, width.bytes))
}

// The backup SRAM: closed as main flash is, or its value, also while busy.
fn sram_answer(r: Record, options: &[u8], sram: &[u8], offset: u32, width: Width) -> Answer
    ensures { result ≡ sram_answer r options.now sram.now offset width.bytes }
{
    unless_closed(
        options::guarded(r.mark, options),
        cells::value_at(sram, offset, width.bytes),
    )
}

fn read_at(r: Record, cells: Cells<'_>, area: Area, width: Width) -> Answer
    ensures { result ≡ read_at (part_seen r cells.entry) area width.bytes }
{
    match area {
        Area::Flash(place) => flash_answer(r, cells, place, width),
        Area::Registers(offset) => register_answer(r, offset, width),
        Area::Sram(offset) => sram_answer(r, cells.options, cells.sram, offset, width),
        Area::Outside => Answer::Refused(Reason::OutsideMap),
    }
}

// A debugger that is not connected learns nothing, so the area is asked last.
pub fn read(r: Record, cells: Cells<'_>, a: Access) -> Answer
    requires { bad_width a.width ≡ false }
    ensures { result ≡ read_answer (part_seen r cells.entry) (area_of (length cells.entry.main.now) a.address a.width) a }
{
    let unconnected = (a.who == 1) & !r.debugger;
    if !r.power {
        return Answer::Refused(Reason::NoPower);
    }
    if unconnected {
        return Answer::Refused(Reason::NotConnected);
    }
    let area = map::areas::area_of(cells.main.len(), a.address, a.width);
    read_at(r, cells, area, Width { bytes: a.width })
}

// Four bytes of main flash: stalled while busy, closed by read protection, or their value.
fn word_answer(r: Record, main: &[u8], options: &[u8], offset: u32) -> Answer
    ensures { result ≡ flash_answer r main.now [] options.now (Main offset) 4 }
{
    if readout::is_busy(r.op) {
        return Answer::Refused(Reason::Stalled);
    }
    unless_closed(
        options::guarded(r.mark, options),
        cells::value_at(main, offset, 4),
    )
}

// An instruction fetch by the CPU.
pub fn fetch(r: Record, main: &[u8], options: &[u8], address: u32) -> Answer
    ensures { result ≡ fetch_answer (part r main.now [] options.now []) address }
{
    if !r.power {
        return Answer::Refused(Reason::NoPower);
    }
    if !map::areas::within(address, 4, MAIN_BASE, main.len()) {
        return Answer::Refused(Reason::OutsideMap);
    }
    let offset = map::areas::offset(address, MAIN_BASE);
    word_answer(r, main, options, offset)
}
