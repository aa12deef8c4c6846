// A record of 16 bytes: kind, who, width, zero, number (32 bits), value (64 bits). It is read as a call, or it is malformed, and
// written from its fields.
ghost use Rattle.std.specs.Prelude.{cond, ◌++◌, ◌≡◌, eqb, length};
ghost use Rattle.std.proofs.lemmas.List.Edits.{sets};
ghost use Rattle.cells.specs.Bytes.{bytes_of};
ghost use Rattle.job.specs.Record.{fields_in, malformed_in, call_in, record_call, record_bytes};

use crate::bytes;
use job::Fields;
use part::Call;

// Bytes that are missing count as 0.
fn fields_in(s: &[u8]) -> Fields
    ensures { result ≡ fields_in s.now }
{
    Fields {
        kind: cells::byte(s, 0) as u32,
        who: cells::byte(s, 1) as u32,
        width: cells::byte(s, 2) as u32,
        unused: cells::byte(s, 3) as u32,
        number: bytes::number_at(s, 4, 4),
        value: cells::value_at(s, 8, 8),
    }
}

// A function of its own, so that the check is compiled without the call, which it does not need.
fn malformed(s: &[u8]) -> bool
    ensures { result ≡ malformed_in s.now }
{
    job_fields::malformed_fields(fields_in(s))
}

// The call of a sound record, for whoever has checked it already.
pub fn call_in(s: &[u8]) -> Call
    ensures { result ≡ call_in s.now }
{
    job_fields::call_of(fields_in(s))
}

// What the bytes of a record say: a call, or nothing where it is malformed.
pub fn record_call(s: &[u8]) -> Option<Call>
    ensures { result ≡ record_call s.now }
{
    if malformed(s) {
        return None;
    }
    Some(call_in(s))
}

// The fields of one byte.
fn put_front(s: &mut [u8], f: Fields)
    ensures { s.new ≡ sets s.old 0 (bytes_of 1 f.kind ++ bytes_of 1 f.who ++ bytes_of 1 f.width ++ bytes_of 1 f.unused) }
{
    cells::store(s, 0, 1, f.kind as u64);
    cells::store(s, 1, 1, f.who as u64);
    cells::store(s, 2, 1, f.width as u64);
    cells::store(s, 3, 1, f.unused as u64);
}

// Into a part of 16 bytes; a part of another length is left alone.
pub fn put_record(s: &mut [u8], f: Fields)
    ensures { s.new ≡ cond (eqb (length s.old) 16) (record_bytes f) s.old }
{
    if s.len() == 16 {
        put_front(s, f);
        cells::store(s, 4, 4, f.number as u64);
        cells::store(s, 8, 8, f.value);
    }
}
