// How many bytes an element has, in plain storage or in linked blocks, by its descriptor and its record.
ghost use Rattle.std.specs.Prelude.{◌≡◌, ◌≤◌};
ghost use Rattle.directory.specs.Slots.{content_at};
ghost use Rattle.directory.specs.Rules.{IsStored};
ghost use Rattle.directory.specs.Steps.Cursors.{most_place};
ghost use Rattle.storage.specs.Copies.{in_blocks};
ghost use Rattle.storage.specs.Sizes.{sized_numbers, size_of_stored, size_of};

use super::element::Element;
use super::{description, element};
use answer::Refusal;
use answer::refusals::Rule;

// The size of the element in linked blocks of the slot at p.
fn size_in_blocks(image: &[u8], p: usize) -> Result<usize, Refusal>
    requires { (p ≤ most_place) × IsStored image.now p }
    ensures { sized_numbers result ≡ size_of_stored p (in_blocks image.now (content_at image.now p)) }
{
    let record = element::content(image, p);
    description::check(record).map_err(|rule| rule.at(p))?;
    Ok(description::record_length(record))
}

// How many bytes a copy of the element would write. The record is judged, its tables and blocks are not.
pub fn size(image: &[u8], tag: u16, reference: u16) -> Result<usize, Refusal>
    ensures { sized_numbers result ≡ size_of image.now tag reference }
{
    let opened = directory::open(image);
    let Ok(counts) = opened else {
        return Err(opened.unwrap_err());
    };
    match element::find(image, counts.blocks, tag, reference) {
        Element::Absent => Err(Rule::Absent.at(0)),
        Element::NotStored(slot) => Err(Rule::NotStored.at(slot)),
        Element::Plain(part) => Ok(part.length),
        Element::Extended(slot) => size_in_blocks(image, slot),
    }
}
