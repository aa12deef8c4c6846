// Power is lost while an operation runs: what it is changing takes scrap.
ghost use Rattle.std.specs.Prelude.{cond, ◌≡◌};
ghost use Rattle.cells.specs.Bytes.{programmed, sparing, scrapped};
ghost use Rattle.map.specs.Sectors.{sector_start, sector_length};
ghost use Rattle.part.specs.Operations.{erasing, target_length, scrap_short, cut_by, cut};
ghost use Rattle.part.specs.Lent.{part_of, SameBuffers};

use part::{CellsMut, Record, Running, Target, Written};
use time::Micros;

// A regression erases main flash until its option time begins.
fn erasing(option: Micros, left: Micros) -> bool
    ensures { result ≡ erasing option left }
{
    option.0 < left.0
}

// How many bytes are being changed.
fn target_length(target: Target, left: Micros, main: usize) -> usize
    ensures { result ≡ target_length target left main }
{
    match target {
        Target::Bytes(w) => w.width as usize,
        Target::Sector(k) => map::sectors::sector_length(k),
        Target::Main(_) => main,
        Target::Regression(_, option) if erasing(option, left) => main,
        Target::Options | Target::Regression(_, _) => map::areas::OPTION_LENGTH,
    }
}

// Refusal 21. The two lengths are those of main flash and of the scrap.
pub fn scrap_short(op: Option<Running>, main: usize, scrap: usize) -> bool
    ensures { result ≡ scrap_short op main scrap }
{
    op.is_some_and(|running| scrap < target_length(running.target, running.left, main))
}

fn cut_program(cells: &mut CellsMut<'_>, w: Written, scrap: &[u8])
    ensures main { cells.new.main.now
        ≡ cond w.otp cells.old.main.now (programmed cells.old.main.now w.offset w.width (sparing w.width w.value scrap.now)) }
    ensures otp { cells.new.otp.now
        ≡ cond w.otp (programmed cells.old.otp.now w.offset w.width (sparing w.width w.value scrap.now)) cells.old.otp.now }
    ensures options { cells.new.options.now ≡ cells.old.options.now }
    ensures sram { cells.new.sram.now ≡ cells.old.sram.now }
    ensures same { SameBuffers cells.old cells.new }
{
    // The call stands in both branches: a function that gives a reference to either of two buffers needs a longer contract than this.
    if w.otp {
        cells::program_sparing(cells.otp, w.offset, w.width, w.value, scrap);
    } else {
        cells::program_sparing(cells.main, w.offset, w.width, w.value, scrap);
    }
}

// The sector's part of main flash takes the scrap from its front on.
fn cut_sector(main: &mut [u8], k: u32, scrap: &[u8])
    ensures { main.new ≡ scrapped main.old (sector_start k) (sector_length k) scrap.now }
{
    let start = map::sectors::sector_start(k);
    let size = map::sectors::sector_length(k);
    cells::scrap_part(main, start, size, scrap);
}

fn cut_target(r: Record, cells: &mut CellsMut<'_>, target: Target, left: Micros, scrap: &[u8])
    ensures same { SameBuffers cells.old cells.new }
    ensures cut { part_of r cells.new ≡ cut_by (part_of r cells.old) target left scrap.now }
{
    let len = cells.main.len();
    match target {
        Target::Bytes(w) => cut_program(cells, w, scrap),
        Target::Sector(k) => cut_sector(cells.main, k, scrap),
        Target::Main(_) => cells::scrap_part(cells.main, 0, len, scrap),
        Target::Options => options::cut_options(cells.options, false, r.optcr, scrap),
        Target::Regression(_, option) if erasing(option, left) => {
            cells::scrap_part(cells.main, 0, len, scrap);
        }
        Target::Regression(_, _) => {
            cells.main.fill(0xFF);
            options::cut_options(cells.options, true, r.optcr, scrap);
            cells.sram.fill(0);
        }
    }
}

// What runs is cut. The record is the reset's to make anew.
pub fn cut(r: Record, cells: &mut CellsMut<'_>, scrap: &[u8])
    ensures same { SameBuffers cells.old cells.new }
    ensures cut { part_of r cells.new ≡ cut (part_of r cells.old) r.op scrap.now }
{
    if let Some(Running { target, left }) = r.op {
        cut_target(r, cells, target, left, scrap);
    }
}
