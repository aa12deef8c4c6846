// Rehearses the job on standard input. One byte more than the longest job is read, so that a longer input is refused like any job that is too
// long, by its mark and version first.
#![tactic(auto)]

use std::io;

fn main(rt: HostRuntime) -> io::Result<()> {
    let mut job = [0u8; 32008];
    let n = input::read_full(&mut rt.stdin(), &mut job);
    rehearsal::rehearse(&rt, &job[..n])?;
    Ok(())
}
