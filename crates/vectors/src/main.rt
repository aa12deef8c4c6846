// Rehearses each job file that an argument names, as `rehearse` does, and prints its name before it.
#![tactic(auto)]

use std::env::{Env, FillError};
use std::io::Write;
use std::{fs, io};

// The longest path, and a NUL.
const PATH: usize = 4096;

// The longest text of an error.
const MESSAGE: usize = 128;

// The system's own words for the error, without its number.
fn print_failure(rt: &HostRuntime, path: &str, error: io::Error) -> io::Result<()> {
    let mut message = [0u8; MESSAGE];
    let mut room = &mut message[..];
    write!(room, "{error}")?;
    let n = MESSAGE.saturating_sub(room.len());
    let said = std::str::from_utf8(&message[..n]).unwrap_or("");
    let words = match said.split_once(" (os error ") {
        Some((words, _)) => words,
        None => said,
    };
    eprintln!(rt; "{path}: {words}")
}

fn rehearse_file(rt: &HostRuntime, path: &str) -> io::Result<()> {
    let mut job = [0u8; 32008];
    match fs::open(rt, path) {
        Ok(mut file) => {
            let n = input::read_full(&mut file, &mut job);
            rehearsal::rehearse(rt, &job[..n])?;
            Ok(())
        }
        Err(e) => print_failure(rt, path, e),
    }
}

fn run_argument(rt: &HostRuntime, path: &[u8]) -> io::Result<()> {
    rt.write_all(path)?;
    rt.write_all(b"\n")?;
    match std::str::from_utf8(path) {
        Ok(path) => rehearse_file(rt, path),
        // A file whose name is no text can't be opened.
        Err(e) => {
            Print::write_all(&rt.stderr(), path)?;
            eprintln!(rt; ": {e}")
        }
    }
}

fn main(rt: HostRuntime) -> io::Result<()> {
    let mut path = [0u8; PATH];
    for i in 1..usize::MAX {
        match rt.arg(i, &mut path) {
            Ok(n) => run_argument(&rt, &path[..n])?,
            // No file has a name that is longer than a path can be.
            Err(FillError::TooLong) => run_argument(&rt, b"")?,
            Err(FillError::NotPresent) => break,
        }
    }
    Ok(())
}
