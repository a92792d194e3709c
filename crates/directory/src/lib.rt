// The directory of an HDF4 image: data descriptor blocks and their slots. Opening is the door that every call goes through first.
#![tactic(auto)]

mod chain;
pub mod cursor;
mod doubts;
pub mod format;
mod gap;
mod inside;
mod key;
pub mod listing;
pub mod places;
pub mod resume;
mod slot;

ghost use Rattle.std.specs.Prelude.{◌≡◌, [], length};
ghost use Rattle.directory.specs.Opening.{opened_numbers, headed, slots_from, open_of};
ghost use Rattle.directory.specs.Lookup.{found_numbers, hit_found, find_in, find_of};
ghost use Rattle.directory.specs.Links.{slots_after, blocks_after};
ghost use Rattle.directory.specs.Steps.Chains.{Laid, InChain};
ghost use Rattle.directory.specs.Steps.Gaps.{Placed};
ghost use Rattle.directory.specs.Steps.Doubts.{Sound};
ghost use Rattle.directory.specs.Steps.Checks.{Reached, Checks};

use answer::Refusal;
use answer::refusals::Rule;
use chain::Shape;
use cursor::Cursor;
use format::{FREE, MAGIC, MOST_BYTES};
use gap::Gap;
use key::Key;

// How many blocks and slots the chain has, and how many of the slots are live.
#[derive(Clone, Copy)]
pub struct Counts {
    pub blocks: usize,
    pub slots: usize,
    pub live: usize,
}

fn is_hdf(image: &[u8]) -> bool
    ensures { result ≡ headed image.now }
{
    4 <= image.len() && wire::read32(image, 0) == MAGIC
}

// What the slots judged so far came to, of which none breaks a rule: how many are live, and a gap.
#[derive(Clone, Copy)]
pub struct Checked {
    pub live: usize,
    pub gap: Gap,
}

// The rules of the slots of a block, after so many others, in which so many are live. Earlier slots are searched where there is a doubt.
fn check_block(
    image: &[u8],
    shape: Shape,
    before: usize,
    b: usize,
    checked: Checked,
    doubts: &[u64; 8],
) -> Result<Checked, Refusal>
    requires { Laid image.now shape × InChain image.now shape.blocks before b × Placed image.now shape.blocks checked.gap
        × Sound image.now shape.blocks doubts.now × Reached image.now shape.blocks before checked.live }
    ensures { Checks image.now shape.blocks before result }
{
    let own = Gap::behind(image, shape, before, b);
    let count = inside::read16(image, b);
    let mut live = checked.live;
    let mut gap = checked.gap;
    'slots: {
        for i in 0..count {
            let p = b + 6 + 12 * i;
            if inside::read16(image, p) == FREE {
                continue;
            }
            gap = match slot::check_element(image, shape, own, gap, p) {
                Ok(next) => next,
                Err(rule) => break 'slots Err(rule.at(p)),
            };
            let key = Key::of(image, p);
            if key.is_among(image, b + 6, doubts::to_search(doubts, key, i)) {
                break 'slots Err(Rule::Twice.at(p));
            }
            let mut earlier = 4;
            for _passed in 0..doubts::to_search(doubts, key, before) {
                if key.is_among(image, earlier + 6, inside::read16(image, earlier)) {
                    break 'slots Err(Rule::Twice.at(p));
                }
                earlier = inside::read32(image, earlier + 2);
            }
            live += 1;
        }
        Ok(Checked { live, gap })
    }
}

// The rules of all slots, in chain order, and how many are live.
fn check_slots(image: &[u8], shape: Shape) -> Result<Counts, Refusal>
    requires { (length (slots_after image.now shape.blocks 4) ≡ shape.slots) × Laid image.now shape }
    ensures { let s = image.now in
        opened_numbers result ≡ slots_from s (blocks_after s shape.blocks 4) [] (slots_after s shape.blocks 4) 0 }
{
    let mut doubts = [0; 8];
    doubts::find(image, shape, &mut doubts);
    let mut checked = Checked {
        live: 0,
        gap: Gap::none(shape),
    };
    let mut b = 4;
    for before in 0..shape.blocks {
        checked = check_block(image, shape, before, b, checked, &doubts)?;
        b = inside::read32(image, b + 2);
    }
    Ok(Counts {
        blocks: shape.blocks,
        slots: shape.slots,
        live: checked.live,
    })
}

// Opens an image: the counts of its chain, or the first rule that it breaks.
pub fn open(image: &[u8]) -> Result<Counts, Refusal>
    ensures { opened_numbers result ≡ open_of image.now }
{
    if MOST_BYTES < image.len() {
        return Err(Rule::TooLong.at(0));
    }
    if !is_hdf(image) {
        return Err(Rule::NotHdf.at(0));
    }
    check_slots(image, chain::walk(image)?)
}

// The first live slot of a chain of so many blocks that has the base tag of a tag and a reference.
pub fn find_slot(image: &[u8], blocks: usize, tag: u16, reference: u16) -> Result<usize, Refusal>
    ensures { result ≡ hit_found (find_in image.now blocks tag reference) }
{
    let first = Cursor::start(image, blocks);
    let at = resume::find_ahead(image, first, tag as usize, reference as usize);
    if at.left == 0 {
        return Err(Rule::Absent.at(0));
    }
    Ok(at.place)
}

// The place of the one live slot that has the base tag of a tag and a reference.
pub fn find(image: &[u8], tag: u16, reference: u16) -> Result<usize, Refusal>
    ensures { found_numbers result ≡ find_of image.now tag reference }
{
    let opened = open(image);
    let Ok(counts) = opened else {
        return Err(opened.unwrap_err());
    };
    find_slot(image, counts.blocks, tag, reference)
}
