// Answer records as the lines of text that `rehearse` prints.
#![tactic(auto)]

ghost use Rattle.std.specs.Prelude.{cond, ◌||◌, ◌++◌, ◌≡◌, ◌+◌, ◌*◌, ◌%◌, ◌<◌, ◌≤◌, eqb, ltb, length, get_or, take, drop};
ghost use Rattle.cells.specs.Bytes.{value_at};
ghost use Rattle.lines.specs.Lines.{digit_of, hex_of, line_of, lines_of};

// The bytes of a line, and those of an answer record.
const LINE: usize = 20;

pub const ANSWER: usize = 16;

// The lowest hexadecimal digit of a number.
fn digit(n: u64) -> u8
    ensures { result ≡ digit_of (n % 16) }
{
    let d = (n % 16) as u8;
    if d < 10 { b'0' + d } else { b'A' + (d - 10) }
}

// The last digits of a number, from the lowest to the highest.
fn put_hex(s: &mut [u8], at: usize, width: usize, v: u64)
    requires { at + width ≤ length s.old }
    ensures { s.new ≡ take at s.old ++ (hex_of width v ++ drop (at + width) s.old) }
{
    let mut rest = v;
    for i in (0..width).rev() {
        s[at + i] = digit(rest);
        rest /= 16;
    }
}

// A line for a code and a value; a place of another length is left alone.
fn put_line(s: &mut [u8], code: u8, value: u64)
    ensures { s.new ≡ cond (eqb (length s.old) 20) (line_of code value) s.old }
{
    if s.len() == LINE {
        put_hex(s, 0, 2, code as u64);
        cells::put(s, 2, b' ');
        put_hex(s, 3, 16, value);
        cells::put(s, 19, b'\n');
    }
}

// The line of record i.
fn put_answer(s: &mut [u8], answers: &[u8], i: usize)
    requires { (16 * i + 16 ≤ length answers.now) × (20 * i + 20 ≤ length s.old) × (i < 2_000) }
    ensures { s.new ≡ take (20 * i) s.old
        ++ (line_of (get_or answers.now (16 * i) 0) (value_at answers.now (16 * i + 8) 8) ++ drop 20 (drop (20 * i) s.old)) }
{
    let at = ANSWER * i;
    let code = cells::byte(answers, at);
    let value = cells::value_at(answers, at as u32 + 8, 8);
    let from = LINE * i;
    put_line(&mut s[from..from + LINE], code, value);
}

fn put_all(s: &mut [u8], answers: &[u8], n: usize)
    requires { (16 * n ≤ length answers.now) × (20 * n ≤ length s.old) × (n ≤ 2_000) }
    ensures { s.new ≡ lines_of answers.now 0 n ++ drop (20 * n) s.old }
{
    for i in 0..n {
        put_answer(s, answers, i);
    }
}

// The lines of the first n answer records, at the front of a place that has room for them, or nothing where n, the records or the place don't
// fit. The result is the number of bytes put.
pub fn put_lines(s: &mut [u8], answers: &[u8], n: usize) -> usize
    ensures value { result ≡ cond (ltb 2_000 n || ltb (length answers.now) (16 * n) || ltb (length s.old) (20 * n)) 0 (20 * n) }
    ensures s { s.new ≡ cond (ltb 2_000 n || ltb (length answers.now) (16 * n) || ltb (length s.old) (20 * n))
        s.old (lines_of answers.now 0 n ++ drop (20 * n) s.old) }
{
    if 2_000 < n || answers.len() < ANSWER * n || s.len() < LINE * n {
        return 0;
    }
    put_all(s, answers, n);
    LINE * n
}
