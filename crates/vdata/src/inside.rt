// Numbers in bytes that are all there, read without a test for their end: every value of a column lies inside, by its sound head.
ghost use Rattle.std.specs.Prelude.{◌+◌, ◌≤◌, length};
ghost use Rattle.wire.specs.Numbers.{ReadsIn, Reads};
ghost use Rattle.wire.specs.declared.ByteOrder.TheVariants.{LittleEndian};
ghost use Rattle.vdata.specs.Steps.{Fixed};

use wire::ByteOrder;

// The numbers in 2, 4 and 8 bytes, most significant byte first.
fn high16(part: &[u8], at: usize) -> usize
    requires { at + 2 ≤ length part.now }
    ensures { Reads 2 part.now at result }
{
    usize::from(part[at]) * 256 + usize::from(part[at + 1])
}

fn high32(part: &[u8], at: usize) -> usize
    requires { at + 4 ≤ length part.now }
    ensures { Reads 4 part.now at result }
{
    usize::from(part[at]) * 16777216
        + usize::from(part[at + 1]) * 65536
        + usize::from(part[at + 2]) * 256
        + usize::from(part[at + 3])
}

fn high64(part: &[u8], at: usize) -> usize
    requires { at + 8 ≤ length part.now }
    ensures { Reads 8 part.now at result }
{
    high32(part, at) * 4294967296 + high32(part, at + 4)
}

// The same, least significant byte first.
fn low16(part: &[u8], at: usize) -> usize
    requires { at + 2 ≤ length part.now }
    ensures { ReadsIn LittleEndian 2 part.now at result }
{
    usize::from(part[at + 1]) * 256 + usize::from(part[at])
}

fn low32(part: &[u8], at: usize) -> usize
    requires { at + 4 ≤ length part.now }
    ensures { ReadsIn LittleEndian 4 part.now at result }
{
    usize::from(part[at + 3]) * 16777216
        + usize::from(part[at + 2]) * 65536
        + usize::from(part[at + 1]) * 256
        + usize::from(part[at])
}

fn low64(part: &[u8], at: usize) -> usize
    requires { at + 8 ≤ length part.now }
    ensures { ReadsIn LittleEndian 8 part.now at result }
{
    low32(part, at + 4) * 4294967296 + low32(part, at)
}

// The number in 1, 2, 4 or 8 bytes, in a byte order.
pub(crate) fn read_number(part: &[u8], at: usize, width: usize, order: ByteOrder) -> usize
    requires { Fixed width × (at + width ≤ length part.now) }
    ensures { ReadsIn order width part.now at result }
{
    match order {
        ByteOrder::BigEndian => match width {
            1 => usize::from(part[at]),
            2 => high16(part, at),
            4 => high32(part, at),
            _ => high64(part, at),
        },
        ByteOrder::LittleEndian => match width {
            1 => usize::from(part[at]),
            2 => low16(part, at),
            4 => low32(part, at),
            _ => low64(part, at),
        },
    }
}
