// Numbers in a job's bytes, the lowest byte first; bytes that are missing count as 0.
ghost use Rattle.std.specs.Prelude.{◌≡◌, ◌≤◌};
ghost use Rattle.cells.specs.Bytes.{value_at};

// A number of up to 32 bits. Where all of its bytes are there it is compiled to one load.
pub(crate) fn number_at(s: &[u8], at: u32, width: u32) -> u32
    requires { width ≤ 4 }
    ensures { result ≡ value_at s.now at width }
{
    (cells::value_at(s, at, width) % 0x1_0000_0000) as u32
}
