// Vgroups, tag 1965.
ghost use Rattle.std.specs.Prelude.{◌≡◌, ◌+◌, ◌*◌, ◌≤◌, length};
ghost use Rattle.std.proofs.lemmas.List.Edits.{sets};
ghost use Rattle.answer.specs.Refusals.{fault_of};
ghost use Rattle.answer.specs.Lent.{Does};
ghost use Rattle.directory.specs.Lookup.{find, find_in};
ghost use Rattle.wire.specs.Layouts as Layout;
ghost use Rattle.records.specs.Readings.{sound_of, record_bytes};
ghost use Rattle.records.specs.Packings.{packed_numbers, Packs};
ghost use Rattle.vgroup.specs.Limits as Limits;
ghost use Rattle.vset.specs.Columns as Columns;
ghost use Rattle.vgroup.specs.Groups as Groups;
ghost use Rattle.vgroup.specs.Steps as Steps;

use super::format::GROUP_TAG;
use answer::Refusal;
use answer::refusals::Rule;
use records::format::MOST_COUNT;
use storage::element;
use storage::element::Part;
use vset::column::lay_column;
use vset::format::VERSION;
use vset::tail;
use vset::tail::{Ending, Tail};

// How many members, where their tags and references stand in the record, and the fields after them.
#[derive(Clone, Copy)]
pub struct Group {
    pub members: usize,
    pub tags: usize,
    pub refs: usize,
    pub tail: Tail,
}

// A group, and where its record starts in the image.
#[derive(Clone, Copy)]
pub struct Placed {
    pub start: usize,
    pub group: Group,
}

fn parse(part: &[u8]) -> Group
    ensures { result ≡ Layout.read Groups.group part.now 0 }
{
    let members = wire::read16(part, 0);
    Group {
        members,
        tags: 2,
        refs: 2 + 2 * members,
        tail: tail::parse(part, (2 + 4 * members) as u32, 0),
    }
}

// The rules of a group's bytes.
fn check(part: &[u8]) -> Result<(), Rule>
    ensures { fault_of result ≡ Groups.group_fault part.now }
{
    let group = parse(part);
    if part.len() < group.tail.end {
        return Err(Rule::Record);
    }
    if group.tail.version != VERSION {
        return Err(Rule::Record);
    }
    Ok(())
}

// Puts tag and reference of each member into the front of a list.
fn put_members(part: &[u8], count: usize, list: &mut [u16])
    requires { (2 * count ≤ length list.old) × (2 + 4 * count ≤ length part.now) }
    ensures { let e = part.now in
        list.new ≡ sets list.old 0
        (Columns.rows2 (Layout.numbers_at 2 count e 2) (Layout.numbers_at 2 count e (2 + 2 * count))) }
{
    for i in 0..count {
        list[2 * i] = wire::read16(part, 2 + 2 * i) as u16;
        list[2 * i + 1] = wire::read16(part, 2 + 2 * count + 2 * i) as u16;
    }
}

// The element of the group of a reference in a chain of so many blocks, where its record breaks no rule. It stays a call of its own, so that
// what it keeps on the stack stands once in a listing and not in each of its levels.
#[inline(never)]
pub fn find(image: &[u8], blocks: usize, reference: u16) -> Result<Part, Refusal>
    ensures { sound_of result ≡ Groups.sound_group image.now (find_in image.now blocks Limits.group_tag reference) }
{
    let found = element::locate(image, blocks, GROUP_TAG, reference)?;
    if let Err(rule) = check(wire::part(image, found.offset, found.length)) {
        return Err(rule.at(found.slot));
    }
    Ok(found)
}

// Reads the group of a reference in a chain of so many blocks: its numbers, and tag and reference of each member to a lent list.
pub fn read_in(
    image: &[u8],
    blocks: usize,
    reference: u16,
    members: &mut [u16],
) -> Result<Placed, Refusal>
    ensures answer { let s = image.now in let found = find_in s blocks Limits.group_tag reference in
        Does (Groups.group_at s found (length members.old)) (Groups.group_members (record_bytes s found))
        members.old members.new (Groups.group_numbers result) }
    ensures held { let s = image.now in Steps.Held s (find_in s blocks Limits.group_tag reference) result }
{
    let found = find(image, blocks, reference)?;
    let part = wire::part(image, found.offset, found.length);
    let group = parse(part);
    if members.len() < 2 * group.members {
        return Err(Rule::Small.at(0));
    }
    put_members(part, group.members, members);
    Ok(Placed {
        start: found.offset,
        group,
    })
}

// The same in an image that is opened first.
pub fn read(image: &[u8], reference: u16, members: &mut [u16]) -> Result<Placed, Refusal>
    ensures answer { let s = image.now in
        Does (Groups.group_of s reference (length members.old)) (Groups.group_members (record_bytes s (find s Limits.group_tag reference)))
        members.old members.new (Groups.group_numbers result) }
    ensures held { let s = image.now in Steps.Held s (find s Limits.group_tag reference) result }
{
    let opened = directory::open(image);
    let Ok(counts) = opened else {
        return Err(opened.unwrap_err());
    };
    read_in(image, counts.blocks, reference, members)
}

// The rules of so many entries of members, name and class of so many bytes and a version.
fn check_pack(members: usize, name: usize, class: usize, version: usize) -> Result<(), Rule>
    ensures { fault_of result ≡ Groups.group_pack_fault members name class version }
{
    if members % 2 != 0 {
        return Err(Rule::Record);
    }
    if MOST_COUNT < members / 2 {
        return Err(Rule::Record);
    }
    tail::check_pack(name, class, version)
}

// Packs a group into the front of a lent buffer. Members are tag and reference of each.
#[tactic(auto, using(crate::proofs::Groups::pack_passed))]
pub fn pack(
    members: &[u16],
    name: &[u8],
    class: &[u8],
    x: Ending,
    out: &mut [u8],
) -> Result<usize, Refusal>
    ensures { let ms = members.now in let n = name.now in let k = class.now in
        Packs (Groups.group_pack_fault (length ms) (length n) (length k) x.version) (Groups.group_bytes ms n k x)
        out.old out.new (packed_numbers result) }
{
    check_pack(members.len(), name.len(), class.len(), x.version as usize)?;
    let count = members.len() / 2;
    let length = 14 + 4 * count + name.len() + class.len();
    if out.len() < length {
        return Err(Rule::Small.at(0));
    }
    wire::write16(out, 0, count);
    lay_column(out, 2, members, 0, 2, count as u16);
    lay_column(out, (2 + 2 * count) as u32, members, 1, 2, count as u16);
    tail::lay(out, 2 + 4 * count, name, class, x);
    Ok(length)
}
