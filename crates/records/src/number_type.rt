// Number types, tag 106.
#![tactic(auto, unfolding(wire::specs::Layouts::read))]

ghost use Rattle.std.specs.Prelude.{◌≡◌};
ghost use Rattle.wire.specs.Layouts as Layout;
ghost use Rattle.directory.specs.Lookup.{find_in};
ghost use Rattle.records.specs.Limits.{number_type_tag};
ghost use Rattle.records.specs.Packings.{packed_numbers, Packs};
ghost use Rattle.records.specs.NumberTypes.{number_type, number_type_numbers, number_type_at, number_type_of, number_type_bytes};

use super::format::NUMBER_TYPE_TAG;
use answer::Refusal;
use answer::refusals::Rule;
use storage::element;

#[derive(Clone, Copy, PartialEq, Eq)]
pub struct NumberType {
    pub version: u8,
    pub code: u8,
    pub width: u8,
    pub class: u8,
}

fn parse(part: &[u8]) -> NumberType
    ensures { result ≡ Layout.read number_type part.now 0 }
{
    NumberType {
        version: wire::read8(part, 0) as u8,
        code: wire::read8(part, 1) as u8,
        width: wire::read8(part, 2) as u8,
        class: wire::read8(part, 3) as u8,
    }
}

// Reads the number type of a reference, in a chain of so many blocks.
pub fn read_in(image: &[u8], blocks: usize, reference: u16) -> Result<NumberType, Refusal>
    ensures { number_type_numbers result ≡ number_type_at image.now (find_in image.now blocks number_type_tag reference) }
{
    let found = element::locate(image, blocks, NUMBER_TYPE_TAG, reference)?;
    let part = wire::part(image, found.offset, found.length);
    if part.len() != 4 {
        return Err(Rule::Record.at(found.slot));
    }
    Ok(parse(part))
}

// The same in an image that is opened first.
pub fn read(image: &[u8], reference: u16) -> Result<NumberType, Refusal>
    ensures { number_type_numbers result ≡ number_type_of image.now reference }
{
    let opened = directory::open(image);
    let Ok(counts) = opened else {
        return Err(opened.unwrap_err());
    };
    read_in(image, counts.blocks, reference)
}

// Packs a number type into the front of a lent buffer.
pub fn pack(x: NumberType, out: &mut [u8]) -> Result<usize, Refusal>
    ensures { Packs 0 (number_type_bytes x) out.old out.new (packed_numbers result) }
{
    if out.len() < 4 {
        return Err(Rule::Small.at(0));
    }
    wire::write8(out, 0, x.version as usize);
    wire::write8(out, 1, x.code as usize);
    wire::write8(out, 2, x.width as usize);
    wire::write8(out, 3, x.class as usize);
    Ok(4)
}
