// Dimensions, tags 300, 307 and 308.
#![tactic(auto, unfolding(crate::specs::Dimensions::dimension_fault, answer::specs::Search::must, wire::specs::Layouts::read, wire::specs::Layouts::extent))]

ghost use Rattle.std.specs.Prelude.{◌≡◌};
ghost use Rattle.answer.specs.Refusals.{fault_of};
ghost use Rattle.wire.specs.Layouts as Layout;
ghost use Rattle.directory.specs.Lookup.{find_in};
ghost use Rattle.records.specs.Packings.{packed_numbers, Packs};
ghost use Rattle.records.specs.Dimensions.{dimension_fault, dimension_numbers, dimension_at, dimension_of, dimension_bytes, dimension_pack_fault};
ghost use Rattle.records.specs.Dimensions as Dimensions;

use super::format::MOST_INTERLACE;
use answer::Refusal;
use answer::refusals::Rule;
use storage::element;

#[derive(Clone, Copy, PartialEq, Eq)]
pub struct Dimension {
    pub x: u32,
    pub y: u32,
    pub type_tag: u16,
    pub type_ref: u16,
    pub elements: u16,
    pub interlace: u16,
    pub compression_tag: u16,
    pub compression_ref: u16,
}

fn parse(part: &[u8]) -> Dimension
    ensures { result ≡ Layout.read Dimensions.dimension part.now 0 }
{
    Dimension {
        x: wire::read32(part, 0) as u32,
        y: wire::read32(part, 4) as u32,
        type_tag: wire::read16(part, 8) as u16,
        type_ref: wire::read16(part, 10) as u16,
        elements: wire::read16(part, 12) as u16,
        interlace: wire::read16(part, 14) as u16,
        compression_tag: wire::read16(part, 16) as u16,
        compression_ref: wire::read16(part, 18) as u16,
    }
}

// The rules of a dimension's bytes.
fn check(part: &[u8]) -> Result<(), Rule>
    ensures { fault_of result ≡ dimension_fault part.now }
{
    if part.len() != 20 {
        return Err(Rule::Record);
    }
    if MOST_INTERLACE < wire::read16(part, 14) {
        return Err(Rule::Record);
    }
    Ok(())
}

// Reads the dimension of a tag and a reference, in a chain of so many blocks.
pub fn read_in(image: &[u8], blocks: usize, tag: u16, reference: u16) -> Result<Dimension, Refusal>
    ensures { dimension_numbers result ≡ dimension_at image.now (find_in image.now blocks tag reference) }
{
    let found = element::locate(image, blocks, tag, reference)?;
    let part = wire::part(image, found.offset, found.length);
    if let Err(rule) = check(part) {
        return Err(rule.at(found.slot));
    }
    Ok(parse(part))
}

// The same in an image that is opened first.
pub fn read(image: &[u8], tag: u16, reference: u16) -> Result<Dimension, Refusal>
    ensures { dimension_numbers result ≡ dimension_of image.now tag reference }
{
    let opened = directory::open(image);
    let Ok(counts) = opened else {
        return Err(opened.unwrap_err());
    };
    read_in(image, counts.blocks, tag, reference)
}

// Packs a dimension into the front of a lent buffer.
pub fn pack(d: Dimension, out: &mut [u8]) -> Result<usize, Refusal>
    ensures { Packs (dimension_pack_fault d) (dimension_bytes d) out.old out.new (packed_numbers result) }
{
    if MOST_INTERLACE < d.interlace as usize {
        return Err(Rule::Record.at(0));
    }
    if out.len() < 20 {
        return Err(Rule::Small.at(0));
    }
    wire::write32(out, 0, d.x as usize);
    wire::write32(out, 4, d.y as usize);
    wire::write16(out, 8, d.type_tag as usize);
    wire::write16(out, 10, d.type_ref as usize);
    wire::write16(out, 12, d.elements as usize);
    wire::write16(out, 14, d.interlace as usize);
    wire::write16(out, 16, d.compression_tag as usize);
    wire::write16(out, 18, d.compression_ref as usize);
    Ok(20)
}
