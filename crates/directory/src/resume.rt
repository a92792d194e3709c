// Lookups that start where an earlier one ended: a reader of many elements that stand in the order of their slots steps over each slot once.
ghost use Rattle.std.specs.Prelude.{◌≡◌, ◌<◌, List, ℕ};
ghost use Rattle.directory.specs.Lookup.{has};
ghost use Rattle.directory.specs.Steps.Cursors.{ahead, Stands};
ghost use Rattle.directory.specs.Steps.Resuming.{since, at_slot, slots_hence, resumed};

use super::cursor::Cursor;
use super::slot;

// How far a cursor may reach: a place of 32 bits, a block's header and 65,536 slots.
const MOST_PLACE: usize = 4295753734;

// Whether a cursor has a slot left, and its numbers are small enough to step on.
fn at_slot(at: Cursor) -> bool
    ensures { result ≡ at_slot at }
{
    if at.left == 0 || MOST_PLACE < at.place {
        return false;
    }
    at.left <= (MOST_PLACE - at.place) / 12 && at.next < 4294967296
}

// The cursor, or one that is past the last slot where it stands at none.
fn standing(from: Cursor) -> Cursor
    ensures { (s : List ℕ) → Stands s result (slots_hence s from) }
{
    if at_slot(from) {
        return from;
    }
    Cursor {
        place: 0,
        left: 0,
        next: 0,
        blocks: 0,
    }
}

// The first of the slots ahead that is live and has the base tag of a tag and a reference; past the last slot where there is none.
pub(crate) fn find_ahead(image: &[u8], from: Cursor, tag: usize, reference: usize) -> Cursor
    requires { Stands image.now from (ahead image.now from) }
    ensures { Stands image.now result (since (has image.now tag reference) (ahead image.now from)) }
{
    let mut at = from;
    while 0 < at.left && !slot::matches(image, tag, reference, at.place) {
        at = at.advanced(image);
    }
    at
}

// The first slot from a cursor on that is live and has the base tag of a tag and a reference, else the first in a chain of so many blocks; past
// the last slot where there is none. The cursor may be any.
pub fn find_from(image: &[u8], blocks: usize, from: Cursor, tag: u16, reference: u16) -> Cursor
    ensures { Stands image.now result (resumed image.now blocks from tag reference) }
{
    let at = find_ahead(image, standing(from), tag as usize, reference as usize);
    if 0 < at.left {
        return at;
    }
    find_ahead(
        image,
        Cursor::start(image, blocks),
        tag as usize,
        reference as usize,
    )
}
