// Asking the part, and comparing what it answers with the script.
use crate::script::{Ask, Step};
use lined::lent::Lines;
use part::{Call, CellsMut, Record, Reply, Running, Target};
use std::io;
use time::Micros;

// In each PSIZE row: 16 us to program, 400,000 us for 16 KiB, 1,100,000 us for 64 KiB, 2,000,000 us for 128 KiB, 16,000,000 us for a
// mass erase, 50,000 us for an option change.
pub(crate) fn bench_timings() -> [u32; 24] {
    let row = [16, 400_000, 1_100_000, 2_000_000, 16_000_000, 50_000];
    let mut timings = [0u32; 24];
    for i in 0..24 {
        timings[i] = row[i % 6];
    }
    timings
}

// A record that no list of calls leads to where none is left.
pub(crate) fn made_by_hand(micros_left: u64) -> Record {
    Record {
        power: true,
        op: Some(Running {
            target: Target::Options,
            left: Micros(micros_left),
        }),
        ..record::fields::fresh()
    }
}

fn report(rt: &impl Print, text: &[u8], step: Step, code: u64, value: u64) -> io::Result<()> {
    rt.write_all(text)?;
    if step.ask.is_decimal() {
        print!(rt; " {code} {value}")?;
    } else {
        print!(rt; " {code} {value:08x}")?;
    }
    if (code != step.code) | (value != step.answer) {
        print!(rt; " WRONG")?;
    }
    println!(rt; "")
}

// A call, for some lines under a buffer that fits no part, or with a timing that is out of range.
fn answer(
    r: Record,
    cells: &mut CellsMut<'_>,
    lines: &mut Lines<'_>,
    timings: &[u32],
    scrap: &[u8],
    ask: Ask,
    c: Call,
) -> Reply {
    match ask {
        Ask::Main => {
            let mut lent = CellsMut {
                main: &mut [0xFF; 16384],
                otp: &mut *cells.otp,
                options: &mut *cells.options,
                sram: &mut *cells.sram,
            };
            calls::call(r, &mut lent, lines, timings, scrap, c)
        }
        Ask::Options => {
            let mut lent = CellsMut {
                main: &mut *cells.main,
                otp: &mut *cells.otp,
                options: &mut [0xFF; 15],
                sram: &mut *cells.sram,
            };
            calls::call(r, &mut lent, lines, timings, scrap, c)
        }
        Ask::Sram => {
            let mut lent = CellsMut {
                main: &mut *cells.main,
                otp: &mut *cells.otp,
                options: &mut *cells.options,
                sram: &mut [0; 4095],
            };
            calls::call(r, &mut lent, lines, timings, scrap, c)
        }
        Ask::Timings => {
            let mut timings = bench_timings();
            timings[5] = 0;
            calls::call(r, cells, lines, &timings, scrap, c)
        }
        _ => calls::call(r, cells, lines, timings, scrap, c),
    }
}

// One call: its answer is printed and compared, and the record after it comes back.
pub(crate) fn ask(
    rt: &impl Print,
    r: Record,
    cells: &mut CellsMut<'_>,
    lines: &mut Lines<'_>,
    timings: &[u32],
    scrap: &[u8],
    text: &[u8],
    step: Step,
) -> io::Result<Record> {
    let c = crate::script::call_of(step);
    let x = answer(r, cells, lines, timings, scrap, step.ask, c);
    let code = record::answers::code_of(x.answer);
    let value = record::answers::value_of(x.answer);
    report(rt, text, step, code as u64, value)?;
    Ok(x.rec)
}

// A window: the length of the part that it gives, and the word at an offset in it.
pub(crate) fn show(
    rt: &impl Print,
    r: Record,
    cells: &CellsMut<'_>,
    timings: &[u32],
    text: &[u8],
    step: Step,
) -> io::Result<()> {
    let part = windows::window_core(
        r,
        cells.main,
        cells.otp,
        cells.options,
        cells.sram,
        timings,
        step.who,
        step.number,
    );
    let word = cells::value_at(part, (step.value % 0x1_0000_0000) as u32, 4);
    report(rt, text, step, part.len() as u64, word)
}
