// The one way to an element: what a tag and a reference name in an image, by the number of its blocks.
#![tactic(auto, using(crate::proofs::Elements::content_part), unfolding(directory::specs::Slots::base_tag, directory::specs::Slots::unstored_at, directory::specs::Slots::size_at, crate::specs::Elements::extended_at, crate::specs::Elements::start_at, crate::specs::Elements::element_at))]

ghost use Rattle.std.specs.Prelude.{◌≡◌, ◌≤◌, eqb};
ghost use Rattle.answer.specs.Search.{hit};
ghost use Rattle.directory.specs.Limits.{lone_tag};
ghost use Rattle.directory.specs.Lookup.{find_in};
ghost use Rattle.directory.specs.Slots.{base_tag, unstored_at, size_at, content_at, tag_at};
ghost use Rattle.directory.specs.Rules.{IsStored};
ghost use Rattle.directory.specs.Steps.Cursors.{most_place};
ghost use Rattle.storage.specs.Elements.{extended_at, start_at, element_at, is_absent, plain_only, located_at};
ghost use Rattle.storage.specs.Tables.{is_there};
ghost use Rattle.wire.specs.Numbers.{part};

use super::format::EXTENDED_LONE;
use answer::Refusal;
use answer::refusals::Rule;
use directory::format::{ALL_ONES, EXTENDED_FIRST, EXTENDED_LAST, LONE};

// An element in plain storage: its slot, and where its bytes stand in the image.
#[derive(Clone, Copy, PartialEq, Eq)]
pub struct Part {
    pub slot: usize,
    pub offset: usize,
    pub length: usize,
}

impl Part {
    // Its bytes in the image.
    pub(crate) fn bytes(self, image: &[u8]) -> &[u8]
        ensures { result.now ≡ part image.now self.offset self.length }
    {
        wire::part(image, self.offset, self.length)
    }
}

// Nothing; an element that is named and not stored yet, with the place of its slot; one in plain storage; or one in extended storage, with its
// slot.
#[derive(Clone, Copy, PartialEq, Eq)]
pub enum Element {
    Absent,
    NotStored(usize),
    Plain(Part),
    Extended(usize),
}

// Whether the slot at p has an extended tag.
fn is_extended(image: &[u8], p: usize) -> bool
    ensures { result ≡ extended_at image.now p }
{
    let tag = wire::read16(image, p);
    EXTENDED_FIRST <= tag && tag <= EXTENDED_LAST
}

// Whether the slot at p has the base tag whose element is empty.
fn is_lone(image: &[u8], p: usize) -> bool
    ensures { result ≡ eqb (base_tag (tag_at image.now p)) lone_tag }
{
    let tag = wire::read16(image, p);
    tag == LONE || tag == EXTENDED_LONE
}

// Whether the element of the slot at p is named and not stored yet.
fn is_unstored(image: &[u8], p: usize) -> bool
    requires { p ≤ most_place }
    ensures { result ≡ unstored_at image.now p }
{
    wire::read32(image, p + 4) == ALL_ONES
        && wire::read32(image, p + 8) == ALL_ONES
        && !is_lone(image, p)
}

// How many bytes the element of the slot at p has, which is stored.
pub(crate) fn size(image: &[u8], p: usize) -> usize
    requires { (p ≤ most_place) × IsStored image.now p }
    ensures { result ≡ size_at image.now p }
{
    if is_lone(image, p) {
        return 0;
    }
    wire::read32(image, p + 8)
}

// Where the bytes of the element of the slot at p start, of which there are so many; 0 where it has none.
pub(crate) fn start(image: &[u8], p: usize, size: usize) -> usize
    requires { (p ≤ most_place) × (size ≡ size_at image.now p) }
    ensures { result ≡ start_at image.now p }
{
    if size == 0 {
        return 0;
    }
    wire::read32(image, p + 4)
}

// The bytes of the element of the slot at p, which is stored, as far as they reach; of an extended element, its record.
pub(crate) fn content(image: &[u8], p: usize) -> &[u8]
    requires { (p ≤ most_place) × IsStored image.now p }
    ensures { result.now ≡ content_at image.now p }
{
    let size = size(image, p);
    wire::part(image, start(image, p, size), size)
}

// Whether the element of the slot at p is in plain storage.
pub(crate) fn is_plain(image: &[u8], p: usize) -> bool
    requires { p ≤ most_place }
    ensures { result ≡ is_there (located_at image.now (hit p)) }
{
    !is_unstored(image, p) && !is_extended(image, p)
}

// What the base tag of a tag and a reference name in a chain of so many blocks.
pub fn find(image: &[u8], blocks: usize, tag: u16, reference: u16) -> Element
    ensures { result ≡ element_at image.now (find_in image.now blocks tag reference) }
{
    let Ok(slot) = directory::find_slot(image, blocks, tag, reference) else {
        return Element::Absent;
    };
    if is_unstored(image, slot) {
        return Element::NotStored(slot);
    }
    if is_extended(image, slot) {
        return Element::Extended(slot);
    }
    let length = size(image, slot);
    Element::Plain(Part {
        slot,
        offset: start(image, slot, length),
        length,
    })
}

impl Element {
    // Whether nothing is named.
    pub(crate) fn is_absent(self) -> bool
        ensures { result ≡ is_absent self }
    {
        match self {
            Element::Absent => true,
            Element::NotStored(_) => false,
            Element::Plain(_) => false,
            Element::Extended(_) => false,
        }
    }

    // For a call that reads plain storage alone: the element, or why it is refused.
    pub fn plain(self) -> Result<Part, Refusal>
        ensures { result ≡ plain_only self }
    {
        match self {
            Element::Absent => Err(Rule::Absent.at(0)),
            Element::NotStored(slot) => Err(Rule::NotStored.at(slot)),
            Element::Plain(part) => Ok(part),
            Element::Extended(slot) => Err(Rule::Storage.at(slot)),
        }
    }
}

// The element of a tag and a reference for such a call.
pub fn locate(image: &[u8], blocks: usize, tag: u16, reference: u16) -> Result<Part, Refusal>
    ensures { result ≡ plain_only (element_at image.now (find_in image.now blocks tag reference)) }
{
    find(image, blocks, tag, reference).plain()
}
