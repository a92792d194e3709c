// The base tag and the reference of a slot, by which it is compared with earlier ones.
ghost use Rattle.std.specs.Prelude.{◌≡◌, ℕ, ◌+◌, ◌*◌, ◌<◌, ◌≤◌, eqb, length};
ghost use Rattle.answer.specs.Search.{any};
ghost use Rattle.directory.specs.Limits.{lone_tag};
ghost use Rattle.directory.specs.Slots.{tag_at, base_tag, rows, clash};
ghost use Rattle.directory.specs.Steps.Keys.{Keyed, Based, mark_by, mark_at, is_either};

use super::format::{EXTENDED_FIRST, LONE};
use super::{inside, slot};

// How far the marks of one reference lie apart for base tags that follow each other: 65,536 by the golden ratio, so that the marks of few
// tags with many references each seldom meet.
const SPREAD: usize = 40503;

const MARKS: usize = 65536;

// How many base tags have marks of their own. A tag and its extended form are equal modulo that.
const KINDS: usize = 16384;

#[derive(Clone, Copy)]
pub struct Key {
    pub kind: usize,
    pub reference: usize,
}

// Whether the first four bytes of one of so many slots are one of two numbers.
fn has_number(image: &[u8], from: usize, count: usize, plain: usize, extended: usize) -> bool
    requires { from + 12 * count ≤ length image.now }
    ensures { result ≡ any (is_either image.now plain extended) (rows from count) }
{
    for i in 0..count {
        let own = inside::read32(image, from + 12 * i);
        if own == plain || own == extended {
            return true;
        }
    }
    false
}

// Whether one of so many slots has the base tag that stands alone.
fn has_lone(image: &[u8], from: usize, count: usize) -> bool
    requires { from + 12 * count ≤ length image.now }
    ensures { result ≡ any (λ q. eqb (base_tag (tag_at image.now q)) lone_tag) (rows from count) }
{
    (0..count).any(|i| slot::base(inside::read16(image, from + 12 * i)) == LONE)
}

// The mark of the slot at p.
pub(crate) fn mark_at(image: &[u8], p: usize) -> usize
    requires { p + 4 ≤ length image.now }
    ensures { (result ≡ mark_at image.now p) × (result < 65536) }
{
    let own = inside::read32(image, p);
    (own / 65536 % KINDS * SPREAD + own % 65536) % MARKS
}

impl Key {
    // The key of the slot at p.
    pub(crate) fn of(image: &[u8], p: usize) -> Key
        requires { p + 4 ≤ length image.now }
        ensures { Keyed image.now p result }
    {
        let kind = slot::base(inside::read16(image, p));
        let reference = inside::read16(image, p + 2);
        Key { kind, reference }
    }

    // Its mark, one of 65,536, which keys of different base tags may share.
    pub(crate) fn mark(self) -> usize
        requires { self.reference < 65536 }
        ensures { (result ≡ mark_by self.kind self.reference) × (result < 65536) }
    {
        (self.kind % KINDS * SPREAD + self.reference) % MARKS
    }

    // Whether a slot with this key, which is not free, clashes with one of so many slots.
    pub(crate) fn is_among(self, image: &[u8], from: usize, count: usize) -> bool
        requires { (from + 12 * count ≤ length image.now) × (self.kind < 65536) × (self.reference < 65536) }
        ensures { (p : ℕ) → Keyed image.now p self → Based image.now p
            → result ≡ any (clash image.now p) (rows from count) }
    {
        if self.kind == LONE {
            return has_lone(image, from, count);
        }
        let plain = self.kind * 65536 + self.reference;
        let extended = if self.kind < EXTENDED_FIRST {
            plain + 1073741824
        } else {
            plain
        };
        has_number(image, from, count, plain, extended)
    }
}
