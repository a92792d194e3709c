// Numbers in bytes: the only way in this library to read or write one. Most significant byte first, but where a byte order is named.
//
// Every function answers on all inputs. A byte past the end reads as 0, and what would be written past the end is dropped.
#![tactic(auto)]

ghost use Rattle.std.specs.Prelude.{◌≡◌, ◌+◌, ◌<◌, ◌≤◌, length, get_or, min, replicate};
ghost use Rattle.wire.specs.Numbers as Numbers;
ghost use Rattle.wire.specs.Numbers.{bytes, put, low_at, high_at, ReadsIn, Reads};
ghost use Rattle.wire.specs.declared.ByteOrder.TheVariants.{LittleEndian};

// Which byte of a number stands first: its most significant one, or its least.
#[derive(Clone, Copy)]
pub enum ByteOrder {
    BigEndian,
    LittleEndian,
}

// Where the byte of a number stands that lies between so many high ones and so many low ones.
fn next_byte(order: ByteOrder, at: usize, high: usize, low: usize) -> usize
    requires { at + high + low < 18446744073709551616 }
    ensures { result ≡ low_at order high (high_at order low at) }
{
    match order {
        ByteOrder::BigEndian => at + high,
        ByteOrder::LittleEndian => at + low,
    }
}

pub fn read8(s: &[u8], at: usize) -> usize
    ensures { Reads 1 s.now at result }
{
    match s.get(at) {
        Some(&byte) => usize::from(byte),
        None => 0,
    }
}

pub fn read16(s: &[u8], at: usize) -> usize
    ensures { Reads 2 s.now at result }
{
    if s.len() <= at {
        return 0;
    }
    if s.len() - at < 2 {
        return read8(s, at) * 256 + read8(s, at + 1);
    }
    usize::from(s[at]) * 256 + usize::from(s[at + 1])
}

pub fn read32(s: &[u8], at: usize) -> usize
    ensures { Reads 4 s.now at result }
{
    if s.len() <= at {
        return 0;
    }
    if s.len() - at < 4 {
        return read16(s, at) * 65536 + read16(s, at + 2);
    }
    usize::from(s[at]) * 16777216
        + usize::from(s[at + 1]) * 65536
        + usize::from(s[at + 2]) * 256
        + usize::from(s[at + 3])
}

pub fn read64(s: &[u8], at: usize) -> usize
    ensures { Reads 8 s.now at result }
{
    if s.len() <= at {
        return 0;
    }
    read32(s, at) * 4294967296 + read32(s, at + 4)
}

// The number in so many bytes, at most 8, in a byte order, byte by byte.
fn read_bytes(s: &[u8], at: usize, width: usize, order: ByteOrder) -> usize
    ensures { ReadsIn order (min width 8) s.now at result }
{
    if s.len() <= at {
        return 0;
    }
    let count = width.min(8);
    let mut n = 0;
    for i in 0..count {
        n = n * 256 + read8(s, next_byte(order, at, i, count - 1 - i));
    }
    n
}

// The numbers in 2, 4 and 8 bytes, least significant byte first.
fn low16(s: &[u8], at: usize) -> usize
    ensures { ReadsIn LittleEndian 2 s.now at result }
{
    if s.len() <= at {
        return 0;
    }
    if s.len() - at < 2 {
        return read8(s, at + 1) * 256 + read8(s, at);
    }
    usize::from(s[at + 1]) * 256 + usize::from(s[at])
}

fn low32(s: &[u8], at: usize) -> usize
    ensures { ReadsIn LittleEndian 4 s.now at result }
{
    if s.len() <= at {
        return 0;
    }
    if s.len() - at < 4 {
        return low16(s, at + 2) * 65536 + low16(s, at);
    }
    usize::from(s[at + 3]) * 16777216
        + usize::from(s[at + 2]) * 65536
        + usize::from(s[at + 1]) * 256
        + usize::from(s[at])
}

fn low64(s: &[u8], at: usize) -> usize
    ensures { ReadsIn LittleEndian 8 s.now at result }
{
    if s.len() <= at {
        return 0;
    }
    low32(s, at + 4) * 4294967296 + low32(s, at)
}

// The number in so many bytes, at most 8, in a byte order: of 1, 2, 4 or 8 bytes without a loop.
pub fn read_number(s: &[u8], at: usize, width: usize, order: ByteOrder) -> usize
    ensures { ReadsIn order (min width 8) s.now at result }
{
    match order {
        ByteOrder::BigEndian => match width {
            1 => read8(s, at),
            2 => read16(s, at),
            4 => read32(s, at),
            8 => read64(s, at),
            _ => read_bytes(s, at, width, order),
        },
        ByteOrder::LittleEndian => match width {
            1 => read8(s, at),
            2 => low16(s, at),
            4 => low32(s, at),
            8 => low64(s, at),
            _ => read_bytes(s, at, width, order),
        },
    }
}

// The byte of a number in WIDTH bytes that has so many before it.
fn byte<const WIDTH: usize>(x: usize, i: usize) -> u8
    requires { (WIDTH ≤ 8) × (i < WIDTH) }
    ensures { result ≡ get_or (bytes WIDTH x) i 0 }
{
    ((x >> (8 * (WIDTH - 1 - i))) % 256) as u8
}

// Writes a number into WIDTH bytes that are all there.
fn write_whole<const WIDTH: usize>(s: &mut [u8], at: usize, x: usize)
    requires { (WIDTH ≤ 8) × (at + WIDTH ≤ length s.old) }
    ensures { s.new ≡ put s.old at (bytes WIDTH x) }
{
    for i in 0..WIDTH {
        s[at + i] = byte::<WIDTH>(x, i);
    }
}

// Writes a number into WIDTH bytes: where all are there, with no test for each.
fn write<const WIDTH: usize>(s: &mut [u8], at: usize, x: usize)
    requires { WIDTH ≤ 8 }
    ensures { s.new ≡ put s.old at (bytes WIDTH x) }
{
    if at < s.len() && WIDTH <= s.len() - at {
        write_whole::<WIDTH>(s, at, x);
        return;
    }
    let room = s.len().saturating_sub(at);
    for i in 0..WIDTH {
        if i < room {
            s[at + i] = byte::<WIDTH>(x, i);
        }
    }
}

pub fn write8(s: &mut [u8], at: usize, x: usize)
    ensures { s.new ≡ put s.old at (bytes 1 x) }
{
    write::<1>(s, at, x);
}

pub fn write16(s: &mut [u8], at: usize, x: usize)
    ensures { s.new ≡ put s.old at (bytes 2 x) }
{
    write::<2>(s, at, x);
}

pub fn write32(s: &mut [u8], at: usize, x: usize)
    ensures { s.new ≡ put s.old at (bytes 4 x) }
{
    write::<4>(s, at, x);
}

pub fn write64(s: &mut [u8], at: usize, x: usize)
    ensures { s.new ≡ put s.old at (bytes 8 x) }
{
    write::<8>(s, at, x);
}

// The lesser of two numbers.
pub fn least(a: usize, b: usize) -> usize
    ensures { result ≡ min a b }
{
    a.min(b)
}

// Copies bytes to a place, one by one: for `copy_from_slice` the compiler would call C's memmove, and the library needs none.
pub fn write_bytes(s: &mut [u8], at: usize, vs: &[u8])
    ensures { s.new ≡ put s.old at vs.now }
{
    let count = vs.len().min(s.len().saturating_sub(at));
    for i in 0..count {
        s[at + i] = vs[i];
    }
}

// Writes so many zeros to a place. A byte that is 0 is left alone: without that test the compiler would call C's memset.
pub fn write_zeros(s: &mut [u8], at: usize, count: usize)
    ensures { s.new ≡ put s.old at (replicate count 0) }
{
    let reach = count.min(s.len().saturating_sub(at));
    for i in 0..reach {
        if s[at + i] != 0 {
            s[at + i] = 0;
        }
    }
}

// So many bytes from a place on, as far as they reach.
pub fn part(s: &[u8], at: usize, count: usize) -> &[u8]
    ensures { result.now ≡ Numbers.part s.now at count }
{
    let start = at.min(s.len());
    let end = start + count.min(s.len() - start);
    &s[start..end]
}
