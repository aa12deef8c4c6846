// Tests of refusals 5 and 9 on an access.
ghost use Rattle.std.specs.Prelude.{◌≡◌};
ghost use Rattle.part.specs.Refusals.{bad_width, too_big, misaligned};

use crate::width::Width;

pub fn bad_width(width: u32) -> bool
    ensures { result ≡ bad_width width }
{
    !matches!(width, 1 | 2 | 4 | 8)
}

// A value that does not fit into so many bytes.
#[tactic(auto, using(crate::proofs::Widths::big_near, crate::proofs::Widths::big_far))]
pub fn too_big(width: u32, value: u64) -> bool
    ensures { result ≡ too_big width value }
{
    width < 8 && value >> (8 * width) != 0
}

// Refusal 9 at an offset from the first register: not aligned, of 8 bytes, or not by word from KEYR up to SR, where OPTKEYR lies too. Widths are
// powers of two, so the number of the last byte has just the bits that an aligned offset lacks.
pub fn misaligned(offset: u32, width: Width) -> bool
    ensures { result ≡ misaligned offset width.bytes }
{
    let last = width.bytes - 1;
    let key = (registers::KEYR <= offset) & (offset < registers::SR);
    (offset & last != 0) | (last > 3) | (key & (last != 3))
}
