// An element in plain storage as a part of the image.
ghost use Rattle.std.specs.Prelude.{◌≡◌};
ghost use Rattle.storage.specs.Views.{viewed_numbers, view_of, bytes_of};

use super::element;
use super::element::Part;
use answer::Refusal;

// Where the element's own part of the image stands.
pub fn numbers(image: &[u8], tag: u16, reference: u16) -> Result<Part, Refusal>
    ensures { viewed_numbers result ≡ view_of image.now tag reference }
{
    let opened = directory::open(image);
    let Ok(counts) = opened else {
        return Err(opened.unwrap_err());
    };
    let found = element::locate(image, counts.blocks, tag, reference)?;
    Ok(found)
}

// The element's own part of the image, empty where the call is refused.
pub fn part(image: &[u8], tag: u16, reference: u16) -> &[u8]
    ensures { result.now ≡ bytes_of image.now (view_of image.now tag reference) }
{
    match numbers(image, tag, reference) {
        Ok(part) => part.bytes(image),
        Err(_) => wire::part(image, 0, 0),
    }
}
