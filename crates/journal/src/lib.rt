// Edits of a file that stands at the front of a lent buffer, and their undo. Each call judges everything first and writes
// afterwards, so that a refusal has altered nothing.
#![tactic(auto)]

mod change;
mod write;

ghost use Rattle.std.specs.Prelude.{◌≡◌, [], ◌∷◌, ◌+◌, ◌≤◌, length, take};
ghost use Rattle.answer.specs.Answer.{grant};
ghost use Rattle.answer.specs.Refusals.{fault_of};
ghost use Rattle.directory.specs.Limits.{most_bytes};
ghost use Rattle.directory.specs.Opening.{open_of};
ghost use Rattle.journal.specs.Trailers.{slot_size};
ghost use Rattle.journal.specs.Edits.{bad_tag, fit_fault};
ghost use Rattle.journal.specs.Undos.{sound, restored_fault, undo_of};
ghost use Rattle.journal.specs.Buffers.{add_in, replace_in, remove_in, undo_in, Leaves};
ghost use Rattle.journal.specs.Steps.Changes.{OpensIn, Targets, slot_in, block_in, new_in};
ghost use Rattle.journal.specs.Steps.Restores.{Restorable};

use answer::Refusal;
use answer::refusals::Rule;
use change::{Change, Form, LINK, LONG_SIZE, SLOT};
use directory::Counts;
use directory::format::{
    EXTENDED_FIRST, EXTENDED_LAST, FREE, LONE, MOST_BLOCKS, MOST_BYTES, MOST_SLOTS,
};
use directory::places::Room;
use write::{BLOCK_SIZE, BLOCK_SLOTS};

// Opens the image that is the first n bytes of a buffer.
fn open_in(buffer: &[u8], n: usize) -> Result<Counts, Refusal>
    ensures { OpensIn buffer.now n result }
{
    if buffer.len() < n {
        return Err(Rule::TooLong.at(0));
    }
    directory::open(&buffer[..n])
}

// Whether no edit takes a tag.
fn bad_tag(tag: usize) -> bool
    ensures { result ≡ bad_tag tag }
{
    matches!(tag, 0 | FREE | LONE | EXTENDED_FIRST..=EXTENDED_LAST)
}

// The rules of a new file of so many bytes in a buffer: it is not too long, and has room.
fn check_fit(size: usize, capacity: usize) -> Result<(), Rule>
    ensures { fault_of result ≡ fit_fault capacity size }
{
    if MOST_BYTES < size {
        return Err(Rule::TooLong);
    }
    if capacity < size {
        return Err(Rule::NoRoom);
    }
    Ok(())
}

// What an edit puts into a slot, and for whom: the tag, the reference and the data.
#[derive(Clone, Copy)]
struct Edit<'a> {
    desk: u32,
    tag: u16,
    reference: u16,
    content: &'a [u8],
}

// Points the slot at p at data appended to the image, unless the new file is too long or has no room.
fn put_slot(buffer: &mut [u8], n: usize, p: usize, edit: Edit<'_>) -> Result<usize, Refusal>
    requires { (n ≤ most_bytes) × (n ≤ length buffer.old) × (p + slot_size ≤ n) }
    ensures { let e = edit.entry in
        Leaves (slot_in buffer.old n p e.desk e.tag e.reference e.content.now)
        buffer.old buffer.new result }
{
    let end = n + edit.content.len();
    if let Err(rule) = check_fit(end + LONG_SIZE, buffer.len()) {
        return Err(rule.at(0));
    }
    let change = change::change_at(&buffer[..n], edit.desk, p, SLOT);
    wire::write_bytes(buffer, n, edit.content);
    change::write_trailer(buffer, end, change);
    write::write_slot(
        buffer,
        p,
        edit.tag as usize,
        edit.reference as usize,
        write::offset_of(edit.content, n),
        edit.content.len(),
    );
    Ok(end + LONG_SIZE)
}

// Appends a block, whose first slot is pointed at data after it, and links it from the block at b.
fn put_block(buffer: &mut [u8], n: usize, b: usize, edit: Edit<'_>) -> Result<usize, Refusal>
    requires { (n ≤ most_bytes) × (n ≤ length buffer.old) × (b + 6 ≤ n) }
    ensures { let e = edit.entry in
        Leaves (block_in buffer.old n b e.desk e.tag e.reference e.content.now)
        buffer.old buffer.new result }
{
    let start = n + BLOCK_SIZE;
    let end = start + edit.content.len();
    if let Err(rule) = check_fit(end + LONG_SIZE, buffer.len()) {
        return Err(rule.at(0));
    }
    let change = change::change_at(&buffer[..n], edit.desk, b + 2, LINK);
    write::write_block(
        buffer,
        n,
        edit.tag as usize,
        edit.reference as usize,
        write::offset_of(edit.content, start),
        edit.content.len(),
    );
    wire::write_bytes(buffer, start, edit.content);
    change::write_trailer(buffer, end, change);
    wire::write32(buffer, b + 2, n);
    Ok(end + LONG_SIZE)
}

// What an edit of a tag and a reference meets in the image: the slot, or no such slot.
#[derive(Clone, Copy)]
enum Target {
    Present(usize),
    Absent(Counts),
}

fn meet(buffer: &[u8], n: usize, tag: u16, reference: u16) -> Result<Target, Refusal>
    ensures { Targets buffer.now n tag reference result }
{
    let opened = open_in(buffer, n);
    let Ok(counts) = opened else {
        return Err(opened.unwrap_err());
    };
    if bad_tag(tag as usize) {
        return Err(Rule::BadTag.at(0));
    }
    match directory::find_slot(&buffer[..n], counts.blocks, tag, reference) {
        Ok(p) => Ok(Target::Present(p)),
        Err(_) => Ok(Target::Absent(counts)),
    }
}

// Adds an element that is absent, in the first free slot or in a new block.
fn put_new(buffer: &mut [u8], n: usize, counts: Counts, edit: Edit<'_>) -> Result<usize, Refusal>
    requires { (n ≤ length buffer.old)
        × (open_of (take n buffer.old) ≡ grant (counts.blocks ∷ counts.slots ∷ counts.live ∷ [])) }
    ensures { let e = edit.entry in
        Leaves (new_in buffer.old n e.desk e.tag e.reference e.content.now)
        buffer.old buffer.new result }
{
    let room = directory::places::find_room(&buffer[..n], counts.blocks);
    match room {
        Room::Slot(p) => put_slot(buffer, n, p, edit),
        Room::Block(b) => {
            if MOST_BLOCKS <= counts.blocks || MOST_SLOTS < counts.slots + BLOCK_SLOTS {
                return Err(Rule::DirBig.at(0));
            }
            put_block(buffer, n, b, edit)
        }
    }
}

// Adds an element. Answers the length of the file that it leaves, as the other edits do.
pub fn add(
    buffer: &mut [u8],
    n: usize,
    desk: u32,
    tag: u16,
    reference: u16,
    content: &[u8],
) -> Result<usize, Refusal>
    ensures { Leaves (add_in buffer.old n desk tag reference content.now)
        buffer.old buffer.new result }
{
    let edit = Edit {
        desk,
        tag,
        reference,
        content,
    };
    match meet(buffer, n, tag, reference)? {
        Target::Present(_) => Err(Rule::Present.at(0)),
        Target::Absent(counts) => put_new(buffer, n, counts, edit),
    }
}

// Points an element at new data, under its base tag.
pub fn replace(
    buffer: &mut [u8],
    n: usize,
    desk: u32,
    tag: u16,
    reference: u16,
    content: &[u8],
) -> Result<usize, Refusal>
    ensures { Leaves (replace_in buffer.old n desk tag reference content.now)
        buffer.old buffer.new result }
{
    let edit = Edit {
        desk,
        tag,
        reference,
        content,
    };
    match meet(buffer, n, tag, reference)? {
        Target::Present(p) => put_slot(buffer, n, p, edit),
        Target::Absent(_) => Err(Rule::Absent.at(0)),
    }
}

// Frees an element's slot.
pub fn remove(
    buffer: &mut [u8],
    n: usize,
    desk: u32,
    tag: u16,
    reference: u16,
) -> Result<usize, Refusal>
    ensures { Leaves (remove_in buffer.old n desk tag reference)
        buffer.old buffer.new result }
{
    let freed = Edit {
        desk,
        tag: FREE as u16,
        reference: 0,
        content: b"",
    };
    match meet(buffer, n, tag, reference)? {
        Target::Present(p) => put_slot(buffer, n, p, freed),
        Target::Absent(_) => Err(Rule::Absent.at(0)),
    }
}

// Whether a restored image opens, and its trailer, or none, is the previous one that a trailer of a form names.
fn is_sound(image: &[u8], form: Form, previous: usize) -> bool
    ensures { result ≡ sound form previous image.now }
{
    previous == change::previous_of(image, form) && directory::open(image).is_ok()
}

// The rules of a trailer by the image that it restores, and of the desk that asks for it.
fn check_restored(image: &[u8], form: Form, change: Change, desk: u32) -> Result<(), Rule>
    ensures { fault_of result ≡ restored_fault form change desk image.now }
{
    if !is_sound(image, form, change.previous) {
        return Err(Rule::BadTrailer);
    }
    if change.desk != desk as usize {
        return Err(Rule::OtherDesk);
    }
    Ok(())
}

// Puts the old bytes back, and the present ones again where the restored image, or the desk, breaks a rule.
fn restore(
    buffer: &mut [u8],
    n: usize,
    form: Form,
    desk: u32,
    present: Change,
    change: Change,
) -> Result<usize, Refusal>
    requires { Restorable buffer.old n form present change }
    ensures { Leaves (undo_of (take n buffer.old) desk)
        buffer.old buffer.new result }
{
    let before = change.before;
    change::write_back(buffer, change);
    match check_restored(&buffer[..before], form, change, desk) {
        Ok(()) => Ok(before),
        Err(rule) => {
            change::write_back(buffer, present);
            Err(rule.at(n - change::size_of(form)))
        }
    }
}

// Takes back the newest edit that the file carries, for the desk that made it.
pub fn undo(buffer: &mut [u8], n: usize, desk: u32) -> Result<usize, Refusal>
    ensures { Leaves (undo_in buffer.old n desk)
        buffer.old buffer.new result }
{
    let opened = open_in(buffer, n);
    let Ok(counts) = opened else {
        return Err(opened.unwrap_err());
    };
    let image = &buffer[..n];
    let Some(form) = change::carried_by(image) else {
        return Err(Rule::NoEdit.at(0));
    };
    let t = n - change::size_of(form);
    let change = change::read_trailer(image, t, form);
    if !change::is_known(image, counts.blocks, t, change) {
        return Err(Rule::BadTrailer.at(t));
    }
    let present = change::change_at(image, desk, change.place, change.altered);
    restore(buffer, n, form, desk, present, change)
}
