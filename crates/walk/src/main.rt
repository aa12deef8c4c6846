// A walk over a part with four sectors, by the calls with the record by value. Standard input is a script: a line for each call, with what
// it must answer, worked out from documents 01 and 02. Each line of the output is a call's text, its code in decimal and its value: in
// decimal for pass and wait, in hexadecimal else. An answer other than the script's is marked WRONG.
#![tactic(auto)]

mod script;
mod station;

use lined::lent::Lines;
use part::{CellsMut, Record};
use script::Ask;
use std::io;

fn line(
    rt: &impl Print,
    r: Record,
    cells: &mut CellsMut<'_>,
    lines: &mut Lines<'_>,
    timings: &[u32],
    scrap: &[u8],
    text: &[u8],
    columns: &[u8],
) -> io::Result<Record> {
    let step = script::step_at(columns);
    match step.ask {
        Ask::Hand => Ok(station::made_by_hand(step.value)),
        Ask::Show => {
            station::show(rt, r, cells, timings, text, step)?;
            Ok(r)
        }
        _ => station::ask(rt, r, cells, lines, timings, scrap, text, step),
    }
}

// Whole lines only.
fn rehearse(
    rt: &impl Print,
    cells: &mut CellsMut<'_>,
    lines: &mut Lines<'_>,
    timings: &[u32],
    scrap: &[u8],
    script: &[u8],
) -> io::Result<()> {
    let mut r = record::fields::fresh();
    for whole in script.chunks_exact(script::LINE) {
        let (text, columns) = whole.split_at(script::TEXT);
        r = line(rt, r, cells, lines, timings, scrap, text, columns)?;
    }
    Ok(())
}

fn main(rt: HostRuntime) -> io::Result<()> {
    let mut main = [0xFFu8; 65536];
    let mut otp = [0xFFu8; 528];
    let mut options = [0xFFu8; 16];
    options[1] = 0xAA;
    let mut sram = [0u8; 4096];
    let mut cells = CellsMut {
        main: &mut main,
        otp: &mut otp,
        options: &mut options,
        sram: &mut sram,
    };
    let mut tags = [0u32; 72];
    let mut bytes = [0u8; 1152];
    let mut lines = Lines {
        tags: &mut tags,
        bytes: &mut bytes,
    };
    let mut script = [0u8; 32768];
    let n = input::read_full(&mut rt.stdin(), &mut script);
    rehearse(
        &rt,
        &mut cells,
        &mut lines,
        &station::bench_timings(),
        &[0xA5u8; 65536],
        &script[..n],
    )
}
