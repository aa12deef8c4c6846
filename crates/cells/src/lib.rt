// Bytes of lent cells: values read and stored little-endian, programming, erasing (document 01, "Cells and map" and "Calls").
// Every public function is total: past the end of a buffer a byte is 0 and a store does nothing.
#![tactic(auto)]

ghost use Rattle.std.specs.Prelude.{cond, ℕ, ◌<◌, ◌^◌, ◌≡◌, ◌+◌, ◌-◌, ◌≤◌, leb, ltb, length, get_or, set, take};
ghost use Rattle.cells.specs.Bytes.{little, value_at, stored, changed, programmed, sparing, erased, scrapped};

// The bytes of system memory, which lie before those of OTP.
const SYSTEM_LENGTH: usize = 0x7800;

// What system memory reads, and an erased cell.
const ERASED: u8 = 0xff;

pub fn byte(s: &[u8], i: usize) -> u8
    ensures { result ≡ get_or s.now i 0 }
{
    s.get(i).copied().unwrap_or(0)
}

// By a test, since std's `get_mut` doesn't say what becomes of the slice.
pub fn put(s: &mut [u8], i: usize, v: u8)
    ensures { s.new ≡ set s.old i v }
{
    if i < s.len() {
        s[i] = v;
    }
}

// The value of n bytes from `at`, the lowest first, of which `byte` gives each by its index.
fn little<F: Fn(usize) -> u8>(at: usize, n: usize, byte: F) -> u64
    requires few { n ≤ 8 }
    requires inside { at + n < 2 ^ 64 }
    requires callable { (i : ℕ) → at ≤ i → i < at + n → F.pre byte i }
    ensures { (f : ℕ → ℕ) → ((i b : ℕ) → at ≤ i → i < at + n → F.post byte i b → b ≡ f i) → result ≡ little f at n }
{
    let mut v: u64 = 0;
    for i in (at..at + n).rev() {
        v = byte(i) as u64 + 256 * v;
    }
    v
}

// The value of N bytes that all lie inside, on direct indices: this is compiled to one load.
fn at_once<const N: usize>(s: &[u8], at: usize) -> u64
    requires few { N ≤ 8 }
    requires inside { at + N ≤ length s.now }
    ensures { result ≡ value_at s.now at N }
{
    little(at, N, |i| s[i])
}

// The value of `width` bytes from `at`, the lowest first. The widths that a call takes are read at once where they lie inside; a word, the
// most frequent, is asked for by itself, so that the others cost it nothing.
pub fn value_at(s: &[u8], at: u32, width: u32) -> u64
    ensures { result ≡ cond (leb width 8) (value_at s.now at width) 0 }
{
    let base = at as usize;
    if width == 4 && base + 4 <= s.len() {
        return at_once::<4>(s, base);
    }
    if base + width as usize <= s.len() {
        match width {
            1 => return s[base] as u64,
            2 => return at_once::<2>(s, base),
            8 => return at_once::<8>(s, base),
            _ => {}
        }
    }
    if width <= 8 {
        little(base, width as usize, |i| byte(s, i))
    } else {
        0
    }
}

// The byte at an offset from the start of system memory, which always reads FF; OTP follows it.
fn system_or_otp(otp: &[u8], i: usize) -> u8
    ensures { result ≡ cond (ltb i 0x7800) 255 (get_or otp.now (i - 0x7800) 0) }
{
    if i < SYSTEM_LENGTH {
        ERASED
    } else {
        byte(otp, i - SYSTEM_LENGTH)
    }
}

// A read that lies in system memory and OTP, from an offset in system memory.
pub fn mixed_value(otp: &[u8], at: u32, width: u32) -> u64
    ensures { result ≡ cond (leb width 8)
        (little (λ i. cond (ltb i 0x7800) 255 (get_or otp.now (i - 0x7800) 0)) at width) 0 }
{
    if width <= 8 {
        little(at as usize, width as usize, |i| system_or_otp(otp, i))
    } else {
        0
    }
}

// Each of `width` bytes from `at` becomes what `new` makes of it, of the value's byte for it, and of its number.
fn change<F: Fn(u8, u8, usize) -> u8>(s: &mut [u8], at: u32, width: u32, value: u64, new: F)
    requires { F.IsAlwaysCallable new }
    ensures { (f : ℕ → ℕ → ℕ → ℕ) → ((old b i r : ℕ) → F.post new old b i r → r ≡ f old b i) → s.new ≡ changed f s.old at 0 width value }
{
    let base = at as usize;
    let mut v = value;
    for i in 0..width as usize {
        put(s, base + i, new(byte(s, base + i), (v % 256) as u8, i));
        v /= 256;
    }
}

// The lowest bytes of a value, the lowest first. For a width that is known this is compiled to one store.
pub fn store(s: &mut [u8], at: u32, width: u32, value: u64)
    ensures { s.new ≡ stored s.old at width value }
{
    change(s, at, width, value, |_, b, _| b)
}

// The bytes become old AND written: a bit that is 0 in a cell or in what is written to it is 0 afterwards.
pub fn program(s: &mut [u8], at: u32, width: u32, value: u64)
    ensures { s.new ≡ programmed s.old at width value }
{
    let cleared = |old: u8, b: u8, _: usize| old & b;
    // Four bytes that lie inside, the most frequent, are compiled to one load and one store, which a read of the word needn't wait for.
    if (at as usize) + 4 <= s.len() && width == 4 {
        change(s, at, 4, value, cleared)
    } else {
        change(s, at, width, value, cleared)
    }
}

// A program that is cut: the bytes become old AND (written OR scrap).
pub fn program_sparing(s: &mut [u8], at: u32, width: u32, value: u64, scrap: &[u8])
    ensures { s.new ≡ programmed s.old at width (sparing width value scrap.now) }
{
    change(s, at, width, value, |old, b, i| old & (b | byte(scrap, i)))
}

// The n bytes from a start become FF; none does where they do not all lie inside.
pub fn erase(s: &mut [u8], start: usize, n: usize)
    ensures { s.new ≡ erased s.old start n }
{
    let len = s.len();
    if start <= len && n <= len - start {
        s[start..start + n].fill(ERASED);
    }
}

// The first bytes of another buffer, which may be longer. One by one, which is compiled to moves of many at once: `copy_from_slice` would make the
// archive without caches want memmove from a host.
pub fn copy(to: &mut [u8], from: &[u8])
    requires { length to.old ≤ length from.now }
    ensures { to.new ≡ take (length to.old) from.now }
{
    for (i, byte) in to.iter_mut().enumerate() {
        *byte = from[i];
    }
}

// An erase that is cut: the n bytes from a start become the first of the scrap; none does where they do not all lie inside or have no scrap.
pub fn scrap_part(s: &mut [u8], start: usize, n: usize, scrap: &[u8])
    ensures { s.new ≡ scrapped s.old start n scrap.now }
{
    let len = s.len();
    if start <= len && n <= len - start && n <= scrap.len() {
        copy(&mut s[start..start + n], scrap);
    }
}
