// Listing the members of a group, each group among them followed by its own members.
ghost use Rattle.std.specs.Prelude.{◌≡◌, [], ◌∷◌, ◌+◌, ◌*◌, ◌≤◌, ◌<◌, length};
ghost use Rattle.wire.specs.Numbers.{put, part};
ghost use Rattle.answer.specs.Lent.{Does};
ghost use Rattle.directory.specs.Steps.Opens.{Opens};
ghost use Rattle.vgroup.specs.Listings as Listings;
ghost use Rattle.vgroup.specs.Steps as Steps;

use super::format::{GROUP_TAG, MOST_GROUPS, MOST_PAIRS};
use super::group;
use answer::Refusal;
use answer::refusals::Rule;
use storage::element::Part;

// Puts a pair into a table. What would fall past its end is dropped.
fn put_pair(table: &mut [u16], at: usize, tag: u16, reference: u16)
    ensures { table.new ≡ put table.old at (tag ∷ reference ∷ []) }
{
    if table.len() <= at {
        return;
    }
    table[at] = tag;
    if table.len() - at < 2 {
        return;
    }
    table[at + 1] = reference;
}

// Lists the members of the group of an element, with place for so many pairs, into a table from a place on, and answers how many pairs they
// are. It is the first of so many groups that may be entered. The table may be too short, as it is where a listing is only judged.
#[cycle(nested_walk)]
fn walk(
    image: &[u8],
    blocks: usize,
    found: Part,
    groups: usize,
    room: usize,
    table: &mut [u16],
    at: usize,
) -> Result<usize, Refusal>
    requires { Opens image.now blocks × (0 < groups) × (at + 2 * room ≤ 8192) }
    ensures { Steps.Walks (Listings.list_from groups image.now found.slot (part image.now found.offset found.length) room)
        at table.old table.new result }
{
    let part = wire::part(image, found.offset, found.length);
    let count = wire::read16(part, 0);
    let mut pairs = 0;
    for i in 0..count {
        if pairs == room {
            return Err(Rule::Small.at(0));
        }
        let tag = wire::read16(part, 2 + 2 * i) as u16;
        let reference = wire::read16(part, 2 + 2 * count + 2 * i) as u16;
        put_pair(table, at + 2 * pairs, tag, reference);
        pairs += 1;
        if tag == GROUP_TAG {
            pairs += nested(
                image,
                blocks,
                found.slot,
                reference,
                groups - 1,
                room - pairs,
                table,
                at + 2 * pairs,
            )?;
        }
    }
    Ok(pairs)
}

// Lists the members of the group of a reference, where it is sound. It is a member of the one whose slot is at holder, and so many more may
// be entered.
#[cycle(nested_walk)]
fn nested(
    image: &[u8],
    blocks: usize,
    holder: usize,
    reference: u16,
    more: usize,
    room: usize,
    table: &mut [u16],
    at: usize,
) -> Result<usize, Refusal>
    requires { Opens image.now blocks × (at + 2 * room ≤ 8192) }
    ensures { Steps.Walks (Listings.nested_from more image.now holder reference room)
        at table.old table.new result }
{
    if more == 0 {
        return Err(Rule::Deep.at(holder));
    }
    let found = group::find(image, blocks, reference)?;
    walk(image, blocks, found, more, room, table, at)
}

// Lists the members of the group of a reference, and those of the groups among them, to a lent table. All is judged first.
pub fn list(image: &[u8], reference: u16, table: &mut [u16]) -> Result<usize, Refusal>
    ensures { let s = image.now in let room = length table.old in
        Does (Listings.listing_of s reference room) (Listings.pairs_of s reference room)
        table.old table.new (Listings.pairs_numbers result) }
{
    let opened = directory::open(image);
    let Ok(counts) = opened else {
        return Err(opened.unwrap_err());
    };
    let blocks = counts.blocks;
    let found = group::find(image, blocks, reference)?;
    let room = (table.len() / 2).min(MOST_PAIRS);
    walk(image, blocks, found, MOST_GROUPS, room, &mut table[..0], 0)?;
    walk(image, blocks, found, MOST_GROUPS, room, table, 0)
}
