// Which slots may clash with an earlier one. A slot of which there is no doubt is not compared with those before it.
//
// Where the references of each base tag ascend, as libraries hand them out, one look at every slot leaves no doubt. Where they do not, keys
// are told apart by their marks, of which there are 65,536. A window of them is marked at a time, and only a window that has a reference out of
// order needs to be. A key whose mark was set before is looked for, and doubted if it is found. So the order of references hardly matters, and little memory is needed.
ghost use Rattle.std.specs.Prelude.{◌≡◌, ◌⊎◌, false, ◌+◌, ◌*◌, ◌<◌, ◌≤◌, length};
ghost use Rattle.directory.specs.Limits.{lone_tag};
ghost use Rattle.directory.specs.Blocks.{slot_count};
ghost use Rattle.directory.specs.Steps.Chains.{Laid, InChain};
ghost use Rattle.directory.specs.Steps.Doubts as Doubts;

use super::chain::Shape;
use super::format::{FREE, LONE};
use super::key::Key;
use super::{inside, key};

// How many buckets of base tags there are: as many as the array of their highest references has.
const BUCKETS: usize = 127;

// How many marks a window has, and how many windows there are.
const WINDOW: usize = 2048;

const WINDOWS: usize = 32;

// How many marks of doubts there are.
const DOUBTS: usize = 512;

// Raises the highest reference of the key's bucket to the key's, if it was below. Whether it was.
fn raise(highest: &mut [u16; 127], key: Key) -> bool
    requires { (length highest.old ≡ 127) × (key.reference < 65536) }
    ensures { Doubts.Raised key highest.old highest.new result }
{
    let bucket = key.kind % BUCKETS;
    let reference = key.reference as u16;
    let below = highest[bucket] < reference;
    if below {
        highest[bucket] = reference;
    }
    below
}

// Marks the window of the slot at p, if it is live and its reference is not above the highest of its bucket so far, which is raised.
fn suspect_slot(image: &[u8], p: usize, highest: &mut [u16; 127], windows: &mut [u64; 1])
    requires { (p + 4 ≤ length image.now) × (length highest.old ≡ 127) × (length windows.old ≡ 1) }
    ensures { Doubts.SuspectedAt image.now p highest.old highest.new
        windows.old windows.new }
{
    if inside::read16(image, p) == FREE {
        return;
    }
    let key = Key::of(image, p);
    if !raise(highest, key) {
        marks::set(windows, key.mark() / WINDOW);
    }
}

// The same for the slots of a block, after so many others.
fn suspect_block(
    image: &[u8],
    blocks: usize,
    before: usize,
    b: usize,
    highest: &mut [u16; 127],
    windows: &mut [u64; 1],
)
    requires { InChain image.now blocks before b × Doubts.Below image.now before 0 highest.old × (length windows.old ≡ 1) }
    ensures { Doubts.Suspected image.now before highest.new windows.old windows.new }
{
    let count = inside::read16(image, b);
    for i in 0..count {
        suspect_slot(image, b + 6 + 12 * i, highest, windows);
    }
}

// The same for all slots.
fn suspect(image: &[u8], shape: Shape, windows: &mut [u64; 1])
    requires { Laid image.now shape × (length windows.old ≡ 1) }
    ensures { Doubts.Unsuspected image.now shape.blocks windows.new }
{
    let mut highest = [0; 127];
    let mut b = 4;
    for before in 0..shape.blocks {
        suspect_block(image, shape.blocks, before, b, &mut highest, windows);
        b = inside::read32(image, b + 2);
    }
}

// Whether slot i of a block, after so many others, clashes with an earlier one; also where it has the base tag of a free slot.
fn clashes(image: &[u8], shape: Shape, before: usize, b: usize, i: usize) -> bool
    requires { Laid image.now shape × InChain image.now shape.blocks before b × (i < slot_count image.now b) }
    ensures { result ≡ false → Doubts.Alone image.now before i }
{
    let key = Key::of(image, b + 6 + 12 * i);
    if key.kind == FREE || key.is_among(image, b + 6, i) {
        return true;
    }
    let mut earlier = 4;
    for _passed in 0..before {
        if key.is_among(image, earlier + 6, inside::read16(image, earlier)) {
            return true;
        }
        earlier = inside::read32(image, earlier + 2);
    }
    false
}

// Marks slot i of a block, if it is live and its mark is in a window. Where that was marked before, it is doubted if it clashes.
fn note_slot(
    image: &[u8],
    shape: Shape,
    before: usize,
    b: usize,
    i: usize,
    window: usize,
    seen: &mut [u64; 32],
    doubts: &mut [u64; 8],
)
    requires { Laid image.now shape × InChain image.now shape.blocks before b × (i < slot_count image.now b)
        × (length seen.old ≡ 32) × (length doubts.old ≡ 8) }
    ensures { Doubts.NotedAt image.now (b + 6 + 12 * i) window seen.old seen.new
        doubts.old doubts.new (Doubts.Alone image.now before i) }
{
    let p = b + 6 + 12 * i;
    let mark = key::mark_at(image, p);
    if mark / WINDOW != window || inside::read16(image, p) == FREE {
        return;
    }
    if !marks::is_set(seen, mark % WINDOW) {
        marks::set(seen, mark % WINDOW);
        return;
    }
    if clashes(image, shape, before, b, i) {
        marks::set(doubts, mark % DOUBTS);
    }
}

// The same for the slots of a block.
fn note_block(
    image: &[u8],
    shape: Shape,
    before: usize,
    b: usize,
    window: usize,
    seen: &mut [u64; 32],
    doubts: &mut [u64; 8],
)
    requires { Laid image.now shape × InChain image.now shape.blocks before b × Doubts.Seen image.now before 0 window seen.old
        × (length doubts.old ≡ 8) }
    ensures { Doubts.Noted image.now before window seen.new doubts.old doubts.new }
{
    let count = inside::read16(image, b);
    for i in 0..count {
        note_slot(image, shape, before, b, i, window, seen, doubts);
    }
}

// The same for all slots.
fn note(image: &[u8], shape: Shape, window: usize, doubts: &mut [u64; 8])
    requires { Laid image.now shape × (length doubts.old ≡ 8) }
    ensures { Doubts.Settled image.now shape.blocks window doubts.old doubts.new }
{
    let mut seen = [0; 32];
    let mut b = 4;
    for before in 0..shape.blocks {
        note_block(image, shape, before, b, window, &mut seen, doubts);
        b = inside::read32(image, b + 2);
    }
}

// Marks the doubts about all slots.
pub(crate) fn find(image: &[u8], shape: Shape, doubts: &mut [u64; 8])
    requires { Laid image.now shape × (length doubts.old ≡ 8) }
    ensures { Doubts.Sound image.now shape.blocks doubts.new }
{
    let mut windows = [0; 1];
    suspect(image, shape, &mut windows);
    for window in 0..WINDOWS {
        if marks::is_set(&windows, window) {
            note(image, shape, window, doubts);
        }
    }
}

// How many of so many earlier slots or blocks a slot with a key is to be compared with: all of them, or none where it is not doubted.
// A slot of the tag that stands alone clashes whatever its reference is.
pub(crate) fn to_search(doubts: &[u64; 8], key: Key, count: usize) -> usize
    requires { key.reference < 65536 }
    ensures { (result ≡ count) ⊎ ((result ≡ 0) × (key.kind ≡ lone_tag → ⊥) × Doubts.Undoubted doubts.now key) }
{
    if key.kind == LONE || marks::is_set(doubts, key.mark() % DOUBTS) {
        count
    } else {
        0
    }
}
