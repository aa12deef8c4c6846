// The lines that a caller lends, of both sides: the eight data lines first, then the 64 instruction lines.
#[derive(Drop)]
pub struct Lines<'a> {
    pub tags: &'a mut [u32; 72],
    pub bytes: &'a mut [u8; 1152],
}
