// A side of the caches over main flash: lines of 16 bytes, the latest used first (document 02, note 5). A side is its lines' tags and their
// bytes; how many lines there are is the number of tags.
#![tactic(auto)]

ghost use Rattle.std.specs.Prelude.{[], ◌∷◌, ◌≡◌, ◌+◌, ◌-◌, ◌*◌, ◌<◌, ◌≤◌, length, take, drop, position, ◌==◌, ◌||◌};
ghost use Rattle.caches.specs.Sides.{Sized, side, line_of, raised, row_of, used, through, accessed, refreshed_byte, refreshed, emptied};
ghost use Rattle.caches.specs.Sides.{slot as Sides·slot};

// The bytes of a line, which are a row of main flash.
const LINE: usize = 16;

// The line from an offset.
fn line_at(s: &[u8], at: usize) -> &[u8; LINE]
    requires { at + 16 ≤ length s.now }
    ensures { result.now ≡ take 16 (drop at s.now) }
{
    s[at..at + LINE].as_array().unwrap()
}

// The N elements of line k are taken out, and others put in front.
fn raise<T: Copy, const N: usize>(s: &mut [T], k: usize, new: [T; N])
    requires { N * k + N ≤ length s.old }
    ensures { s.new ≡ raised N k new s.old }
{
    s.copy_within(..N * k, N);
    *s.first_chunk_mut().unwrap() = new;
}

// The first line that has a tag or is free.
fn place(tags: &[u32], tag: u32) -> Option<usize>
    ensures { result ≡ position (λ x. x == tag || x == 0) tags.now }
{
    tags.iter().position(|&x| x == tag || x == 0)
}

// The line that a row has or takes: its own, else the first that is free, else the last.
fn slot(tags: &[u32], row: u32) -> usize
    requires { (0 < length tags.now) × (row < 0x1000_0000) }
    ensures { (result ≡ Sides·slot row tags.now) × (result < length tags.now) }
{
    let last = tags.len() - 1;
    place(&tags[..last], row + 1).unwrap_or(last)
}

// The tags of a side and the bytes of its lines, both lent.
#[derive(Drop)]
pub struct Side<'a> {
    pub tags: &'a mut [u32],
    pub bytes: &'a mut [u8],
    pub ghost sized: { Sized (side tags.now bytes.now) },
}

impl Side<'_> {
    ghost use Rattle.caches.specs.Held.{side_of, SameLent};

    // A use of a row: the bytes that it finds. Where no line has the row, that of the slot is filled with it.
    fn touch(&mut self, main: &[u8], row: u32) -> [u8; LINE]
        requires { (row < 0x1000_0000) × (16 * row + 16 ≤ length main.now) }
        ensures found { result ≡ line_of main.now row (side_of self.old) }
        ensures done { side_of self.new ≡ used main.now row (side_of self.old) }
        ensures lent { SameLent self.new self.old }
    {
        let k = slot(&mut *self.tags, row);
        let line = *self.found(main, row, k);
        raise(self.tags, k, [row + 1]);
        raise(self.bytes, k, line);
        line
    }

    // What is found there: the bytes of line k where it is the row's, else the cells'.
    fn found<'a>(&'a self, main: &'a [u8], row: u32, k: usize) -> &'a [u8; LINE]
        requires { (k ≡ Sides·slot row self.now.tags.now) × (k < length self.now.tags.now) × (row < 0x1000_0000) × (16 * row + 16 ≤ length main.now) }
        ensures { result.now ≡ line_of main.now row (side_of self.now) }
    {
        if self.tags[k] == row + 1 {
            line_at(self.bytes, LINE * k)
        } else {
            line_at(main, LINE * row as usize)
        }
    }

    // The value of `width` bytes from an offset in main flash, taken from the lines: the lower first, then the upper, where they lie in two.
    pub fn access(&mut self, main: &[u8], at: u32, width: u32) -> u64
        requires { (1 ≤ width) × (width ≤ 8) × (at + width ≤ 0x1_0000_0000) × (16 * row_of (at + width - 1) + 16 ≤ length main.now) }
        ensures done { through result (side_of self.new) ≡ accessed main.now at width (side_of self.old) }
        ensures lent { SameLent self.new self.old }
    {
        let low = at / 16;
        let high = (at + (width - 1)) / 16;
        let line = self.touch(main, low);
        if low == high {
            return cells::value_at(&line, at % 16, width);
        }
        let lines = [line, self.touch(main, high)];
        cells::value_at(lines.as_flattened(), at % 16, width)
    }

    // All lines are free.
    pub fn empty(&mut self)
        ensures done { side_of self.new ≡ emptied (side_of self.old) }
        ensures lent { SameLent self.new self.old }
    {
        if self.tags[0] == 0 {
            return;
        }
        self.tags.fill(0);
        self.bytes.fill(0);
    }
}

fn refresh_byte(main: &[u8], tags: &[u32], bytes: &mut [u8], at: u32)
    requires { Sized (side tags.now bytes.old) }
    ensures { side tags.now bytes.new ≡ refreshed_byte main.now at (side tags.now bytes.old) }
{
    let row = at / 16;
    let k = slot(tags, row);
    if tags[k] == row + 1 {
        bytes[LINE * k + (at % 16) as usize] = cells::byte(main, at as usize);
    }
}

// Bytes that were programmed: those of a line that is held become the cells'. Where the first line is free, none is held. Programming is no use of a
// line, so tags are lent to be read, and this is no method of a side.
pub fn refresh(main: &[u8], tags: &[u32], bytes: &mut [u8], at: u32, width: u32)
    requires { Sized (side tags.now bytes.old) × (at + width ≤ 0x1_0000_0000) }
    ensures { side tags.now bytes.new ≡ refreshed main.now at width (side tags.now bytes.old) }
{
    if tags[0] == 0 {
        return;
    }
    for i in 0..width {
        refresh_byte(main, tags, bytes, at + i);
    }
}
