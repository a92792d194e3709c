// Marks as the bits of 64-bit words, the lowest bit of a word first. A mark past the last word is never set.
#![tactic(auto)]

ghost use Rattle.std.specs.Prelude.{◌≡◌};
ghost use Rattle.marks.specs.Marks.{marked, with_mark};

// Whether mark n is set.
pub fn is_set(marks: &[u64], n: usize) -> bool
    ensures { result ≡ marked marks.now n }
{
    match marks.get(n / 64) {
        Some(&word) => (word >> (n % 64)) % 2 == 1,
        None => false,
    }
}

// Sets mark n.
pub fn set(marks: &mut [u64], n: usize)
    ensures { marks.new ≡ with_mark marks.old n }
{
    if n / 64 < marks.len() {
        marks[n / 64] |= 1 << (n % 64);
    }
}
