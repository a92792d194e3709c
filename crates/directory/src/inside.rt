// Numbers in bytes that are all in the image, read without a test for its end. The walk along the chain has shown that every block lies inside.
ghost use Rattle.std.specs.Prelude.{◌+◌, ◌≤◌, length};
ghost use Rattle.wire.specs.Numbers.{Reads};

pub(crate) fn read16(image: &[u8], at: usize) -> usize
    requires { at + 2 ≤ length image.now }
    ensures { Reads 2 image.now at result }
{
    usize::from(image[at]) * 256 + usize::from(image[at + 1])
}

pub(crate) fn read32(image: &[u8], at: usize) -> usize
    requires { at + 4 ≤ length image.now }
    ensures { Reads 4 image.now at result }
{
    usize::from(image[at]) * 16777216
        + usize::from(image[at + 1]) * 65536
        + usize::from(image[at + 2]) * 256
        + usize::from(image[at + 3])
}
