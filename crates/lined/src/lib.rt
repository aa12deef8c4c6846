// What the lines of the caches make of a call that the part has answered (document 02, note 5). Tags and bytes are those of both sides, the eight
// data lines first, then the 64 instruction lines.
// `cached` says whether there are lines at all: it is tested once in each function, where a type parameter would make every function above generic.
// That main flash is in whole rows is a clause and no type: it is lent in any length, and only beside a whole call does refusal 1 leave whole rows.
#![tactic(auto)]

ghost use Rattle.std.specs.Prelude.{true, cond, ◌&&◌, ◌≡◌, ◌+◌, ◌-◌, ◌*◌, ◌%◌, ◌<◌, ◌≤◌, length};
ghost use Rattle.cached.specs.Lines.{both_emptied, is_done, looked_up, emptied_if, after_write, at_end, with_data, with_code};
ghost use Rattle.cached.specs.Lines.{lined as Lines·lined, lines as Lines·lines, takes as Lines·takes};
ghost use Rattle.caches.specs.Sides.{Sized, side, through, accessed};
ghost use Rattle.map.specs.Areas.{inside, main_base};
ghost use Rattle.part.specs.declared.Target.TheVariants.{Bytes};
ghost use Rattle.registers.specs.Fields.{DCEN, ICEN};
ghost use Rattle.registers.specs.Words.{is_set};
ghost use Rattle.lined.specs.Lent.{lines_in, SameArrays};
ghost use Rattle.lined.specs.Ready.{Rowed, TargetSmall};

use caches::Side;
use lent::Lines;
use map::areas;
use part::{Access, Answer, Written};

pub mod lent;

fn is_done(answer: Answer) -> bool
    ensures { result ≡ is_done answer }
{
    matches!(answer, Answer::Done(_))
}

// Whether an access takes its bytes from the lines: its side is on, and it is one of main flash that is done.
fn from_lines(on: bool, main: &[u8], answer: Answer, address: u32, width: u32) -> bool
    ensures { result ≡ (on && (is_done answer && inside address width main_base (length main.now))) }
{
    on && is_done(answer) && areas::within(address, width, areas::MAIN_BASE, main.len())
}

// This and the next take a side's slices: of a Side that is made of parts of slices, a proof knows no more than the lengths once it has ended.

// The value of an access to main flash, by the lines of a side.
fn value_of(main: &[u8], tags: &mut [u32], bytes: &mut [u8], address: u32, width: u32) -> u64
    requires { Sized (side tags.old bytes.old) × Rowed (length main.now) × (1 ≤ width) × (width ≤ 8)
        × (inside address width main_base (length main.now) ≡ true) }
    ensures { through result (side tags.new bytes.new)
        ≡ accessed main.now (address - main_base) width (side tags.old bytes.old) }
{
    let at = areas::offset(address, areas::MAIN_BASE);
    Side { tags, bytes }.access(main, at, width)
}

fn empty_if(test: bool, tags: &mut [u32], bytes: &mut [u8])
    requires { Sized (side tags.old bytes.old) }
    ensures { side tags.new bytes.new ≡ emptied_if test (side tags.old bytes.old) }
{
    if test {
        Side { tags, bytes }.empty();
    }
}

// Each side, where it is asked for.
fn empty_each(reads: bool, fetches: bool, lines: &mut Lines<'_>)
    ensures same { SameArrays lines.old lines.new }
    ensures lined { lines_in lines.new
        ≡ Lines·lines (emptied_if reads (lines_in lines.old).data_side)
        (emptied_if fetches (lines_in lines.old).code_side) }
{
    let tags = &mut *lines.tags;
    let bytes = &mut *lines.bytes;
    empty_if(reads, &mut tags[0..8], &mut bytes[0..128]);
    empty_if(fetches, &mut tags[8..72], &mut bytes[128..1152]);
}

// A write to ACR that is done empties a side by a 1 in its reset bit, if its enable bit was 0. Addresses before and behind ACR leave first, by two tests
// of which the compiler makes one.
fn after_write(acr: u32, lines: &mut Lines<'_>, answer: Answer, a: Access, value: u64)
    requires { 1 ≤ a.width }
    ensures same { SameArrays lines.old lines.new }
    ensures lined { lines_in lines.new
        ≡ after_write acr answer a value (lines_in lines.old) }
{
    if !is_done(answer) {
        return;
    }
    if a.address < areas::REGISTER_BASE {
        return;
    }
    if areas::REGISTER_BASE + 4 <= a.address {
        return;
    }
    if !areas::within(a.address, a.width, areas::REGISTER_BASE, 4) {
        return;
    }
    let low = (value % 0x1_0000_0000) as u32;
    let offset = areas::offset(a.address, areas::REGISTER_BASE);
    let written = registers::placed(low, a.width, offset);
    let reset_reads = registers::is_set(written, registers::DCRST);
    let reset_fetches = registers::is_set(written, registers::ICRST);
    if !(reset_reads | reset_fetches) {
        return;
    }
    let reads = takes(acr, written, registers::DCEN, registers::DCRST);
    let fetches = takes(acr, written, registers::ICEN, registers::ICRST);
    empty_each(reads, fetches, lines);
}

fn takes(acr: u32, written: u32, enable: u32, reset: u32) -> bool
    ensures { result ≡ Lines·takes acr written enable reset }
{
    let on = registers::is_set(acr, enable);
    let asked = registers::is_set(written, reset);
    asked & !on
}

// What calls, and ends of operations, make of the lines where there are caches; debugger on and off leave them. A reset that is done empties both sides.
pub fn on_reset(cached: bool, answer: Answer, lines: &mut Lines<'_>)
    ensures same { SameArrays lines.old lines.new }
    ensures lined { lines_in lines.new
        ≡ cond cached (cond (is_done answer) (both_emptied (lines_in lines.old)) (lines_in lines.old))
        (lines_in lines.old) }
{
    let both = cached & is_done(answer);
    empty_each(both, both, lines);
}

// A read, with the answer that the lines give it. Main flash is lent on by `&*`: handed on as it is, it would be stored before the test, for every read.
pub fn on_read(
    cached: bool,
    acr: u32,
    main: &[u8],
    lines: &mut Lines<'_>,
    answer: Answer,
    a: Access,
) -> Answer
    requires { Rowed (length main.now) × (1 ≤ a.width) × (a.width ≤ 8) }
    ensures same { SameArrays lines.old lines.new }
    ensures lined { Lines·lined result (lines_in lines.new)
        ≡ cond cached (with_data (lines_in lines.old)
        (looked_up (is_set acr DCEN) main.now answer a.address a.width (lines_in lines.old).data_side))
        (Lines·lined answer (lines_in lines.old)) }
{
    let on = registers::is_set(acr, registers::DCEN);
    if !from_lines(cached & on, main, answer, a.address, a.width) {
        return answer;
    }
    let tags = &mut *lines.tags;
    let bytes = &mut *lines.bytes;
    let value = value_of(
        &*main,
        &mut tags[0..8],
        &mut bytes[0..128],
        a.address,
        a.width,
    );
    Answer::Done(value)
}

pub fn on_write(
    cached: bool,
    acr: u32,
    lines: &mut Lines<'_>,
    answer: Answer,
    a: Access,
    value: u64,
)
    requires { 1 ≤ a.width }
    ensures same { SameArrays lines.old lines.new }
    ensures lined { lines_in lines.new
        ≡ cond cached (after_write acr answer a value (lines_in lines.old)) (lines_in lines.old) }
{
    if cached {
        after_write(acr, lines, answer, a, value);
    }
}

pub fn on_fetch(
    cached: bool,
    acr: u32,
    main: &[u8],
    lines: &mut Lines<'_>,
    answer: Answer,
    address: u32,
) -> Answer
    requires { Rowed (length main.now) }
    ensures same { SameArrays lines.old lines.new }
    ensures lined { Lines·lined result (lines_in lines.new)
        ≡ cond cached (with_code (lines_in lines.old)
        (looked_up (is_set acr ICEN) main.now answer address 4 (lines_in lines.old).code_side))
        (Lines·lined answer (lines_in lines.old)) }
{
    let on = registers::is_set(acr, registers::ICEN);
    if !from_lines(cached & on, main, answer, address, 4) {
        return answer;
    }
    let tags = &mut *lines.tags;
    let bytes = &mut *lines.bytes;
    let value = value_of(&*main, &mut tags[8..72], &mut bytes[128..1152], address, 4);
    Answer::Done(value)
}

// The end of a program: the data lines follow main flash, on or off.
pub fn on_program(cached: bool, w: Written, main: &[u8], lines: &mut Lines<'_>)
    requires { TargetSmall (Bytes w) }
    ensures same { SameArrays lines.old lines.new }
    ensures lined { lines_in lines.new
        ≡ cond cached (at_end (Bytes w) main.now (lines_in lines.old))
        (lines_in lines.old) }
{
    if cached && !w.otp {
        let tags = &mut *lines.tags;
        let bytes = &mut *lines.bytes;
        caches::refresh(main, &mut tags[0..8], &mut bytes[0..128], w.offset, w.width);
    }
}

// The end of a regression.
pub fn on_regression(cached: bool, lines: &mut Lines<'_>)
    ensures same { SameArrays lines.old lines.new }
    ensures lined { lines_in lines.new
        ≡ cond cached (both_emptied (lines_in lines.old)) (lines_in lines.old) }
{
    empty_each(cached, cached, lines);
}
