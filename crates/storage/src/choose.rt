// An element's part of one of two images: the current one where it has the element, else the fallback.
ghost use Rattle.std.specs.Prelude.{◌≡◌};
ghost use Rattle.storage.specs.Choices.{chosen_numbers, choose_of, chosen_bytes};

use super::element;
use super::element::Part;
use answer::Refusal;

// The part, in the current image or in the fallback.
#[derive(Clone, Copy, PartialEq, Eq)]
pub enum Chosen {
    Current(Part),
    Fallback(Part),
}

// Which image the part comes from, and where it stands there.
pub fn numbers(current: &[u8], fallback: &[u8], tag: u16, reference: u16) -> Result<Chosen, Refusal>
    ensures { chosen_numbers result ≡ choose_of current.now fallback.now tag reference }
{
    let opened = directory::open(current);
    let Ok(counts) = opened else {
        return Err(opened.unwrap_err());
    };
    let opened_fallback = directory::open(fallback);
    let Ok(fallback_counts) = opened_fallback else {
        return Err(opened_fallback.unwrap_err());
    };
    let found = element::find(current, counts.blocks, tag, reference);
    if found.is_absent() {
        let part = element::locate(fallback, fallback_counts.blocks, tag, reference)?;
        return Ok(Chosen::Fallback(part));
    }
    Ok(Chosen::Current(found.plain()?))
}

// The part, empty where the call is refused.
pub fn part<'a>(current: &'a [u8], fallback: &'a [u8], tag: u16, reference: u16) -> &'a [u8]
    ensures { result.now ≡ chosen_bytes current.now fallback.now
        (choose_of current.now fallback.now tag reference) }
{
    match numbers(current, fallback, tag, reference) {
        Ok(Chosen::Current(part)) => part.bytes(current),
        Ok(Chosen::Fallback(part)) => part.bytes(fallback),
        Err(_) => wire::part(current, 0, 0),
    }
}
