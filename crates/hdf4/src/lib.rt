// The C interface of the library. Link libhdf4.a or libhdf4.so.
//
// Every function returns a struct of numbers: number and place first (0 and 0 where the call is granted), then its values in order, zeros
// where it is refused, but for the index of hdf4_copy. A slice passes as a pointer and a length, in entries of its type. A null pointer is
// allowed exactly where the length is 0. Nothing is written where a call is refused.
//
// The numbers of refusals are named below. A place counts bytes from the start of the image.
//
// No function allocates memory or keeps anything between calls. On x86-64 none keeps more than 1,024 bytes of stack, but for
// hdf4_list_group, which says what it keeps.
#![tactic(auto)]

mod field_table;
pub mod limits;
mod record_calls;
mod vset_calls;

ghost use Rattle.std.specs.Prelude.{◌≡◌, length};
ghost use Rattle.answer.specs.Lent.{Does};
ghost use Rattle.directory.specs.Opening.{opened_numbers, open_of};
ghost use Rattle.directory.specs.Lookup.{found_numbers, find_of};
ghost use Rattle.directory.specs.Descriptors.{listed_numbers, list_of, elements_of};
ghost use Rattle.storage.specs.Views.{viewed_numbers, view_of};
ghost use Rattle.storage.specs.Sizes.{sized_numbers, size_of};
ghost use Rattle.storage.specs.Copies.{copied_numbers, copy_of, element_bytes};
ghost use Rattle.storage.specs.Choices.{chosen_numbers, choose_of};
ghost use Rattle.journal.specs.Outcomes.{edited_numbers};
ghost use Rattle.journal.specs.Buffers.{add_in, replace_in, remove_in, undo_in};
ghost use Rattle.hdf4.specs.Answers.{open_answer, find_answer, list_answer, view_answer, size_answer, copy_answer, choose_answer, edit_answer, Edits};

use answer::{Carrying, Refusal};
use directory::Counts;
use storage::choose::Chosen;
use storage::element::Part;

// What the directory of an image has.
#[repr(C)]
#[derive(Clone, Copy, Default)]
pub struct OpenAnswer {
    pub number: u64,
    pub place: u64,
    // Blocks of descriptors.
    pub blocks: u64,
    // Slots in these blocks, the free ones included.
    pub slots: u64,
    // Slots that are not free: the elements.
    pub live: u64,
}

// Where an element's descriptor stands.
#[repr(C)]
#[derive(Clone, Copy, Default)]
pub struct FindAnswer {
    pub number: u64,
    pub place: u64,
    // The place of the descriptor in the image.
    pub slot: u64,
}

// What was listed.
#[repr(C)]
#[derive(Clone, Copy, Default)]
pub struct ListAnswer {
    pub number: u64,
    pub place: u64,
    // Live slots that were written to the table.
    pub elements: u64,
}

// An element's own part of the image.
#[repr(C)]
#[derive(Clone, Copy, Default)]
pub struct ViewAnswer {
    pub number: u64,
    pub place: u64,
    // Where the part starts in the image, 0 where the element has no bytes.
    pub offset: u64,
    // Bytes of the element.
    pub length: u64,
}

// How many bytes a copy of an element has.
#[repr(C)]
#[derive(Clone, Copy, Default)]
pub struct SizeAnswer {
    pub number: u64,
    pub place: u64,
    // Bytes of the element.
    pub length: u64,
}

// What was copied.
#[repr(C)]
#[derive(Clone, Copy, Default)]
pub struct CopyAnswer {
    pub number: u64,
    pub place: u64,
    // Bytes of the element.
    pub length: u64,
    // Which table or block of the element's linked blocks is broken, counted from 0, where the number is 23 to 27; else 0.
    pub index: u64,
}

// An element's own part of one of two images.
#[repr(C)]
#[derive(Clone, Copy, Default)]
pub struct ChooseAnswer {
    pub number: u64,
    pub place: u64,
    // 1 for the current image, 2 for the fallback.
    pub which: u64,
    // Where the part starts in that image, 0 where the element has no bytes.
    pub offset: u64,
    // Bytes of the element.
    pub length: u64,
}

// What an edit or an undo left.
#[repr(C)]
#[derive(Clone, Copy, Default)]
pub struct EditAnswer {
    pub number: u64,
    pub place: u64,
    // Bytes of the new image.
    pub length: u64,
}

impl From<Result<Counts, Refusal>> for OpenAnswer {
    ghost from_gives = { λ opened answer. open_answer answer ≡ opened_numbers opened };

    fn from(opened: Result<Counts, Refusal>) -> OpenAnswer {
        match opened {
            Ok(counts) => OpenAnswer {
                blocks: counts.blocks as u64,
                slots: counts.slots as u64,
                live: counts.live as u64,
                ..OpenAnswer::default()
            },
            Err(refusal) => OpenAnswer {
                number: refusal.rule.number() as u64,
                place: refusal.place as u64,
                ..OpenAnswer::default()
            },
        }
    }
}

impl From<Result<usize, Refusal>> for FindAnswer {
    ghost from_gives = { λ found answer. find_answer answer ≡ found_numbers found };

    fn from(found: Result<usize, Refusal>) -> FindAnswer {
        match found {
            Ok(slot) => FindAnswer {
                slot: slot as u64,
                ..FindAnswer::default()
            },
            Err(refusal) => FindAnswer {
                number: refusal.rule.number() as u64,
                place: refusal.place as u64,
                ..FindAnswer::default()
            },
        }
    }
}

impl From<Result<usize, Refusal>> for ListAnswer {
    ghost from_gives = { λ listed answer. list_answer answer ≡ listed_numbers listed };

    fn from(listed: Result<usize, Refusal>) -> ListAnswer {
        match listed {
            Ok(elements) => ListAnswer {
                elements: elements as u64,
                ..ListAnswer::default()
            },
            Err(refusal) => ListAnswer {
                number: refusal.rule.number() as u64,
                place: refusal.place as u64,
                ..ListAnswer::default()
            },
        }
    }
}

impl From<Result<Part, Refusal>> for ViewAnswer {
    ghost from_gives = { λ viewed answer. view_answer answer ≡ viewed_numbers viewed };

    fn from(viewed: Result<Part, Refusal>) -> ViewAnswer {
        match viewed {
            Ok(part) => ViewAnswer {
                offset: part.offset as u64,
                length: part.length as u64,
                ..ViewAnswer::default()
            },
            Err(refusal) => ViewAnswer {
                number: refusal.rule.number() as u64,
                place: refusal.place as u64,
                ..ViewAnswer::default()
            },
        }
    }
}

impl From<Result<usize, Refusal>> for SizeAnswer {
    ghost from_gives = { λ sized answer. size_answer answer ≡ sized_numbers sized };

    fn from(sized: Result<usize, Refusal>) -> SizeAnswer {
        match sized {
            Ok(length) => SizeAnswer {
                length: length as u64,
                ..SizeAnswer::default()
            },
            Err(refusal) => SizeAnswer {
                number: refusal.rule.number() as u64,
                place: refusal.place as u64,
                ..SizeAnswer::default()
            },
        }
    }
}

impl From<Result<usize, Carrying>> for CopyAnswer {
    ghost from_gives = { λ copied answer. copy_answer answer ≡ copied_numbers copied };

    fn from(copied: Result<usize, Carrying>) -> CopyAnswer {
        match copied {
            Ok(length) => CopyAnswer {
                length: length as u64,
                ..CopyAnswer::default()
            },
            Err(refusal) => CopyAnswer {
                number: refusal.rule.number() as u64,
                place: refusal.place as u64,
                index: refusal.value as u64,
                ..CopyAnswer::default()
            },
        }
    }
}

impl From<Result<Chosen, Refusal>> for ChooseAnswer {
    ghost from_gives = { λ chosen answer. choose_answer answer ≡ chosen_numbers chosen };

    fn from(chosen: Result<Chosen, Refusal>) -> ChooseAnswer {
        match chosen {
            Ok(Chosen::Current(part)) => ChooseAnswer {
                which: 1,
                offset: part.offset as u64,
                length: part.length as u64,
                ..ChooseAnswer::default()
            },
            Ok(Chosen::Fallback(part)) => ChooseAnswer {
                which: 2,
                offset: part.offset as u64,
                length: part.length as u64,
                ..ChooseAnswer::default()
            },
            Err(refusal) => ChooseAnswer {
                number: refusal.rule.number() as u64,
                place: refusal.place as u64,
                ..ChooseAnswer::default()
            },
        }
    }
}

impl From<Result<usize, Refusal>> for EditAnswer {
    ghost from_gives = { λ edited answer. edit_answer answer ≡ edited_numbers edited };

    fn from(edited: Result<usize, Refusal>) -> EditAnswer {
        match edited {
            Ok(length) => EditAnswer {
                length: length as u64,
                ..EditAnswer::default()
            },
            Err(refusal) => EditAnswer {
                number: refusal.rule.number() as u64,
                place: refusal.place as u64,
                ..EditAnswer::default()
            },
        }
    }
}

// Opens an image: counts its directory, or finds the first rule that it breaks.
#[unsafe(no_mangle)]
pub extern "C" fn hdf4_open(image: &[u8]) -> OpenAnswer
    ensures { open_answer result ≡ open_of image.now }
{
    directory::open(image).into()
}

// Finds the live slot that has the base tag of a tag and a reference.
#[unsafe(no_mangle)]
pub extern "C" fn hdf4_find(image: &[u8], tag: u16, reference: u16) -> FindAnswer
    ensures { find_answer result ≡ find_of image.now tag reference }
{
    directory::find(image, tag, reference).into()
}

// Lists the live slots in chain order to the front of a lent table: tag, reference, offset and length of each, as they stand in its slot. Offset and
// length of an element that is named and not stored yet are 4294967295; every call that reads it answers `NOT_STORED`. A table of
// 4 times `MOST_ELEMENTS` entries is always enough.
#[unsafe(no_mangle)]
pub extern "C" fn hdf4_list(image: &[u8], table: &mut [u32]) -> ListAnswer
    ensures { Does (list_of image.now (length table.old)) (elements_of image.now)
        table.old table.new (list_answer result) }
{
    directory::listing::list(image, table).into()
}

// Finds an element's own part of the image. The element is plain: an extended one is refused at its slot.
#[unsafe(no_mangle)]
pub extern "C" fn hdf4_view(image: &[u8], tag: u16, reference: u16) -> ViewAnswer
    ensures { view_answer result ≡ view_of image.now tag reference }
{
    storage::view::numbers(image, tag, reference).into()
}

// Tells how many bytes hdf4_copy would write, and so how long its output must be. The element is plain or of linked blocks; their record is
// judged, and their tables and blocks are not: hdf4_copy may still refuse these.
#[unsafe(no_mangle)]
pub extern "C" fn hdf4_size(image: &[u8], tag: u16, reference: u16) -> SizeAnswer
    ensures { size_answer result ≡ size_of image.now tag reference }
{
    storage::size::size(image, tag, reference).into()
}

// Copies an element's bytes to the front of a lent output; the rest of it stays as it was. The element is plain or of linked blocks, of which one
// that was never written reads as zeros. Where a table or a block is broken the refusal says which: its place is the element's slot, and its
// index that of the first one that a walk meets. The output may not lie in the image.
#[unsafe(no_mangle)]
pub extern "C" fn hdf4_copy(image: &[u8], tag: u16, reference: u16, out: &mut [u8]) -> CopyAnswer
    ensures { Does (copy_of image.now tag reference (length out.old)) (element_bytes image.now tag reference)
        out.old out.new (copy_answer result) }
{
    storage::copy::copy(image, tag, reference, out).into()
}

// Finds an element's own part of the current image or, where that has no such element, of the fallback. Both must open, and the element is
// plain: one that is extended in the current image is refused, whatever the fallback has. A refusal by the opening of an image, or by the
// element's storage, names a place in that image.
#[unsafe(no_mangle)]
pub extern "C" fn hdf4_choose(
    current: &[u8],
    fallback: &[u8],
    tag: u16,
    reference: u16,
) -> ChooseAnswer
    ensures { choose_answer result ≡ choose_of current.now fallback.now tag reference }
{
    storage::choose::numbers(current, fallback, tag, reference).into()
}

// Edits and undo.
//
// The image is the first `n` bytes of a lent buffer; an `n` over the buffer's length is refused. The new image stands at the front of the
// buffer, and the bytes behind its end stay as they were. An edit changes one descriptor, or links one new block, and appends the data and a
// trailer that says how to undo it and which desk made it: the image grows by the data and at most `EDIT_ROOM` bytes more. The data may not
// lie in the buffer. The tag is not 0, 1 or 107, and not of the extended form, 16384 to 32767. The desk is any number: who edits a file alone
// names 0.

// Adds an element with its data, in the first free slot or in a new block.
#[unsafe(no_mangle)]
pub extern "C" fn hdf4_add(
    buffer: &mut [u8],
    n: u64,
    desk: u32,
    tag: u16,
    reference: u16,
    content: &[u8],
) -> EditAnswer
    ensures { Edits (add_in buffer.old n desk tag reference content.now) buffer.old buffer.new result }
{
    journal::add(buffer, n as usize, desk, tag, reference, content).into()
}

// Gives an element other data.
#[unsafe(no_mangle)]
pub extern "C" fn hdf4_replace(
    buffer: &mut [u8],
    n: u64,
    desk: u32,
    tag: u16,
    reference: u16,
    content: &[u8],
) -> EditAnswer
    ensures { Edits (replace_in buffer.old n desk tag reference content.now)
        buffer.old buffer.new result }
{
    journal::replace(buffer, n as usize, desk, tag, reference, content).into()
}

// Removes an element.
#[unsafe(no_mangle)]
pub extern "C" fn hdf4_remove(
    buffer: &mut [u8],
    n: u64,
    desk: u32,
    tag: u16,
    reference: u16,
) -> EditAnswer
    ensures { Edits (remove_in buffer.old n desk tag reference) buffer.old buffer.new result }
{
    journal::remove(buffer, n as usize, desk, tag, reference).into()
}

// Undoes the newest edit that the image carries, for the desk that made it: the image is as before the edit, byte for byte. Another desk is
// refused with `OTHER_DESK`, at the place of the edit's trailer. The trailer ends the image. If it has 36 bytes, the four before its last four are
// the desk, most significant byte first; if it has 32, it is from before trailers named a desk, and desk 0's.
#[unsafe(no_mangle)]
pub extern "C" fn hdf4_undo(buffer: &mut [u8], n: u64, desk: u32) -> EditAnswer
    ensures { Edits (undo_in buffer.old n desk) buffer.old buffer.new result }
{
    journal::undo(buffer, n as usize, desk).into()
}
