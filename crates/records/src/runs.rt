// Runs of numbers between a record's bytes and lent lists.
ghost use Rattle.std.specs.Prelude.{ℕ, ◌≡◌, ◌+◌, ◌*◌, ◌≤◌, length, map};
ghost use Rattle.std.proofs.lemmas.List.Edits.{sets};
ghost use Rattle.wire.specs.Numbers.{be, bytes, put};
ghost use Rattle.wire.specs.Layouts.{numbers_at, bytes_each};

// The type of a run's numbers: how many bytes each has, and a number of the bytes as one of the list and back.
pub(crate) trait Number: Copy {
    ghost WIDTH: { ℕ };

    ghost of: { ℕ → Self };

    ghost value: { Self → ℕ };

    const WIDTH: usize;

    fn read(part: &[u8], at: usize) -> Self
        ensures { result ≡ of (be WIDTH part.now at) };

    fn write(self, out: &mut [u8], at: usize)
        ensures { out.new ≡ put out.old at (bytes WIDTH (value self)) };
}

impl Number for u16 {
    ghost WIDTH = { 2 };

    ghost of = { λ n. n };

    ghost value = { λ x. x };

    const WIDTH: usize = 2;

    fn read(part: &[u8], at: usize) -> u16 {
        wire::read16(part, at) as u16
    }

    fn write(self, out: &mut [u8], at: usize) {
        wire::write16(out, at, self as usize);
    }
}

impl Number for u32 {
    ghost WIDTH = { 4 };

    ghost of = { λ n. n };

    ghost value = { λ x. x };

    const WIDTH: usize = 4;

    fn read(part: &[u8], at: usize) -> u32 {
        wire::read32(part, at) as u32
    }

    fn write(self, out: &mut [u8], at: usize) {
        wire::write32(out, at, self as usize);
    }
}

// Takes so many numbers, from a place of a record on, to the front of a list.
pub(crate) fn take<T: Number>(part: &[u8], at: usize, count: usize, list: &mut [T])
    requires { (count ≤ length list.old) × (at + T.WIDTH * count ≤ length part.now) }
    ensures { list.new ≡ sets list.old 0 (map T.of (numbers_at T.WIDTH count part.now at)) }
{
    for i in 0..count {
        list[i] = T::read(part, at + T::WIDTH * i);
    }
}

// Lays the numbers of a list from a place of a buffer on.
pub(crate) fn lay<T: Number>(out: &mut [u8], at: usize, list: &[T])
    requires { at + T.WIDTH * length list.now ≤ length out.old }
    ensures { out.new ≡ put out.old at (bytes_each T.WIDTH (map T.value list.now)) }
{
    for (i, &x) in list.iter().enumerate() {
        x.write(out, at + T::WIDTH * i);
    }
}
