// A copy of an element's bytes, from plain storage or from linked blocks.
ghost use Rattle.std.specs.Prelude.{◌≤◌, length};
ghost use Rattle.answer.specs.Lent.{Does};
ghost use Rattle.directory.specs.Slots.{content_at};
ghost use Rattle.directory.specs.Rules.{IsStored};
ghost use Rattle.directory.specs.Steps.Cursors.{most_place};
ghost use Rattle.directory.specs.Steps.Opens.{Opens};
ghost use Rattle.storage.specs.Copies.{copied_numbers, in_blocks, copy_at, copy_of, element_bytes};

use super::element::Element;
use super::linked::Lookups;
use super::{description, element};
use answer::Carrying;
use answer::refusals::Rule;

// Copies the bytes of the element in linked blocks of the slot at p. All is judged first, by a walk that has no buffer to write to.
fn copy_blocks(image: &[u8], blocks: usize, p: usize, out: &mut [u8]) -> Result<usize, Carrying>
    requires { Opens image.now blocks × (p ≤ most_place) × IsStored image.now p }
    ensures { let x = in_blocks image.now (content_at image.now p) in
        Does (copy_at (length out.old) p x) x.bytes out.old out.new (copied_numbers result) }
{
    let record = element::content(image, p);
    description::check(record).map_err(|rule| rule.at(p))?;
    if out.len() < description::record_length(record) {
        return Err(Carrying::from(Rule::Small.at(0)));
    }
    let mut lookups = Lookups::start(image, blocks);
    let d = lookups.describe(record);
    lookups.follow(d, &mut out[..0]).map_err(|broken| Carrying {
        rule: broken.rule,
        place: p,
        value: broken.index,
    })?;
    let _ = lookups.follow(d, out);
    Ok(d.length)
}

// Copies the element's bytes to the front of a lent buffer, and answers how many they are; a refusal carries the index of the table or block
// that is broken, 0 where it is none. A call that is refused writes nothing.
pub fn copy(image: &[u8], tag: u16, reference: u16, out: &mut [u8]) -> Result<usize, Carrying>
    ensures { Does (copy_of image.now tag reference (length out.old)) (element_bytes image.now tag reference)
        out.old out.new (copied_numbers result) }
{
    let opened = directory::open(image);
    let Ok(counts) = opened else {
        return Err(Carrying::from(opened.unwrap_err()));
    };
    match element::find(image, counts.blocks, tag, reference) {
        Element::Absent => Err(Carrying::from(Rule::Absent.at(0))),
        Element::NotStored(slot) => Err(Carrying::from(Rule::NotStored.at(slot))),
        Element::Plain(part) => {
            if out.len() < part.length {
                return Err(Carrying::from(Rule::Small.at(0)));
            }
            wire::write_bytes(out, 0, part.bytes(image));
            Ok(part.length)
        }
        Element::Extended(slot) => copy_blocks(image, counts.blocks, slot, out),
    }
}
