// Time passes over what runs, whose end changes cells.
ghost use Rattle.std.specs.Prelude.{cond, ◌≡◌};
ghost use Rattle.cached.specs.Lines.{at_end, after_time};
ghost use Rattle.cells.specs.Bytes.{programmed, erased};
ghost use Rattle.lined.specs.Lent.{lines_in, SameArrays};
ghost use Rattle.lined.specs.Ready.{TargetSmall, OperationSmall};
ghost use Rattle.map.specs.Sectors.{sector_start, sector_length};
ghost use Rattle.part.specs.Lent.{part_of, SameBuffers};
ghost use Rattle.part.specs.Operations.{idled, reloaded, ended, elapsed_over, time_left, none_left};

use lined::lent::Lines;
use part::{CellsMut, Record, Running, Target, Written};
use record::fields;
use time::Micros;

// Nothing runs any more, and EOP rises where EOPIE asks for it.
fn idled(r: Record) -> Record
    ensures { result ≡ idled r }
{
    let asked = registers::is_set(r.cr, registers::EOPIE);
    let eop = if asked { registers::EOP } else { 0 };
    Record {
        sr: r.sr | eop,
        op: None,
        ..r
    }
}

// OPTCR takes its fields from new option cells, and level 2 lets no debugger stay.
fn reloaded(r: Record, options: &[u8]) -> Record
    ensures { result ≡ reloaded r options.now }
{
    let level = options::level_of(options);
    Record {
        optcr: options::loaded_optcr(options),
        debugger: r.debugger & (level != 2),
        ..r
    }
}

fn program(cells: &mut CellsMut<'_>, w: Written)
    ensures same { SameBuffers cells.old cells.new }
    ensures main { cells.new.main.now ≡ cond w.otp cells.old.main.now (programmed cells.old.main.now w.offset w.width w.value) }
    ensures otp { cells.new.otp.now ≡ cond w.otp (programmed cells.old.otp.now w.offset w.width w.value) cells.old.otp.now }
    ensures options { cells.new.options.now ≡ cells.old.options.now }
    ensures sram { cells.new.sram.now ≡ cells.old.sram.now }
{
    // The call stands in both branches: a function that gives a reference to either of two buffers needs a longer contract than this.
    if w.otp {
        cells::program(cells.otp, w.offset, w.width, w.value);
    } else {
        cells::program(cells.main, w.offset, w.width, w.value);
    }
}

// The sector's part of main flash becomes FF.
fn erase_sector(main: &mut [u8], k: u32)
    ensures { main.new ≡ erased main.old (sector_start k) (sector_length k) }
{
    let start = map::sectors::sector_start(k);
    let size = map::sectors::sector_length(k);
    cells::erase(main, start, size);
}

// The last microsecond has passed.
fn finish(
    r: Record,
    cells: &mut CellsMut<'_>,
    lines: &mut Lines<'_>,
    target: Target,
    cached: bool,
) -> Record
    requires { TargetSmall target }
    ensures same { SameBuffers cells.old cells.new × SameArrays lines.old lines.new }
    ensures ended { part_of result cells.new ≡ ended (part_of r cells.old) target }
    ensures lines { lines_in lines.new
        ≡ cond cached (at_end target cells.new.main.now (lines_in lines.old)) (lines_in lines.old) }
{
    let next = idled(r);
    match target {
        Target::Bytes(w) => {
            program(cells, w);
            lined::on_program(cached, w, &mut *cells.main, lines);
            next
        }
        Target::Sector(k) => {
            erase_sector(cells.main, k);
            next
        }
        Target::Main(_) => {
            cells.main.fill(0xFF);
            next
        }
        Target::Options => {
            options::change_options(cells.options, r.optcr);
            reloaded(next, &mut *cells.options)
        }
        Target::Regression(_, _) => {
            cells.main.fill(0xFF);
            options::regress_options(cells.options);
            cells.sram.fill(0);
            lined::on_regression(cached, lines);
            reloaded(next, &mut *cells.options)
        }
    }
}

pub fn elapse(
    r: Record,
    cells: &mut CellsMut<'_>,
    lines: &mut Lines<'_>,
    t: Micros,
    cached: bool,
) -> Record
    requires { OperationSmall r.op }
    ensures same { SameBuffers cells.old cells.new × SameArrays lines.old lines.new }
    ensures elapsed { part_of result cells.new ≡ elapsed_over (part_of r cells.old) r.op t }
    ensures lines { lines_in lines.new
        ≡ cond cached (after_time r.op result.op cells.new.main.now (lines_in lines.old)) (lines_in lines.old) }
{
    let Some(Running { target, left }) = r.op else {
        return r;
    };
    if t.0 < left.0 {
        let still = Running {
            target,
            left: Micros(left.0 - t.0),
        };
        return fields::with_op(r, Some(still));
    }
    finish(r, cells, lines, target, cached)
}

pub fn time_left(op: Option<Running>) -> Micros
    ensures { result ≡ time_left op }
{
    op.map_or(Micros(0), |running| running.left)
}

// Refusal 19: a busy part with none left.
pub fn none_left(op: Option<Running>) -> bool
    ensures { result ≡ none_left op }
{
    op.is_some_and(|running| running.left.0 == 0)
}
