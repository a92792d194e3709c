// The trailer: a record of one change of the directory, with what undo needs to take it back, and whose change it is.
ghost use Rattle.std.specs.Prelude.{◌≡◌, ◌≤◌, ◌<◌};
ghost use Rattle.wire.specs.Numbers.{put};
ghost use Rattle.directory.specs.Limits.{most_bytes};
ghost use Rattle.directory.specs.Steps.Opens.{Opens};
ghost use Rattle.journal.specs.Trailers as Trailers;
ghost use Rattle.journal.specs.Trailers.{form_size, form_closing, trailer_at, trailer_bytes, carried_by, counts_form, previous_of, named, change_at, old_bytes};
ghost use Rattle.journal.specs.declared.change.Form.TheVariants.{Long};
ghost use Rattle.journal.specs.Undos.{place_known, known};
ghost use Rattle.journal.specs.Steps.Restores.{desk_at};

use directory::places::{has_link, has_slot};

const OLD_SIZE: usize = 32;

pub const LONG_SIZE: usize = 36;

const OLD_CLOSING: usize = 0x4241434b;

const LONG_CLOSING: usize = 0x42414332;

// The header and an empty block: what stands before the trailer in the shortest image that carries one.
const LEAST_BEFORE: usize = 10;

// How many bytes of the directory a change alters: a slot, or a next field.
pub const SLOT: usize = 12;

pub const LINK: usize = 4;

// The forms of a trailer: the old one, and the long one, which names a desk. New ones are long.
#[derive(Clone, Copy, PartialEq, Eq)]
pub enum Form {
    Old,
    Long,
}

// The place and the number of the bytes altered, the old bytes as three numbers, the length of the image before, the place of the
// previous trailer or 0, and the desk that made the change. A trailer that a file carries may have any number in each.
#[derive(Clone, Copy)]
pub struct Change {
    pub place: usize,
    pub altered: usize,
    pub first: usize,
    pub second: usize,
    pub third: usize,
    pub before: usize,
    pub previous: usize,
    pub desk: usize,
}

// How many bytes a trailer has.
pub(crate) fn size_of(form: Form) -> usize
    ensures { result ≡ form_size form }
{
    match form {
        Form::Old => OLD_SIZE,
        Form::Long => LONG_SIZE,
    }
}

// The four bytes that a trailer ends in.
fn closing_of(form: Form) -> usize
    ensures { result ≡ form_closing form }
{
    match form {
        Form::Old => OLD_CLOSING,
        Form::Long => LONG_CLOSING,
    }
}

// Whether an image is long enough for a trailer and ends in its closing bytes.
fn carries(image: &[u8], form: Form) -> bool
    ensures { result ≡ Trailers.carries form image.now }
{
    let n = image.len();
    LEAST_BEFORE + size_of(form) <= n && wire::read32(image, n - 4) == closing_of(form)
}

// The form of the trailer that an image ends in, where it carries one.
pub(crate) fn carried_by(image: &[u8]) -> Option<Form>
    ensures { result ≡ carried_by image.now }
{
    if carries(image, Form::Long) {
        return Some(Form::Long);
    }
    if carries(image, Form::Old) {
        return Some(Form::Old);
    }
    None
}

// Whether a trailer names one before it as the previous one: an old one knows only old ones.
fn counts_form(form: Form, before: Form) -> bool
    ensures { result ≡ counts_form form before }
{
    form == Form::Long || before == Form::Old
}

// The previous trailer, as one behind the image has to name it: its place, or 0.
pub(crate) fn previous_of(image: &[u8], form: Form) -> usize
    ensures { result ≡ previous_of form image.now }
{
    match carried_by(image) {
        Some(before) if counts_form(form, before) => image.len() - size_of(before),
        _ => 0,
    }
}

// What an edit that alters a slot or a next field of an image has to record.
pub(crate) fn change_at(image: &[u8], desk: u32, place: usize, altered: usize) -> Change
    requires { place ≤ most_bytes }
    ensures { result ≡ change_at image.now (named desk) place altered }
{
    let (second, third) = if altered == SLOT {
        (
            wire::read32(image, place + 4),
            wire::read32(image, place + 8),
        )
    } else {
        (0, 0)
    };
    Change {
        place,
        altered,
        first: wire::read32(image, place),
        second,
        third,
        before: image.len(),
        previous: previous_of(image, Form::Long),
        desk: desk as usize,
    }
}

// Writes a trailer of the long form.
pub(crate) fn write_trailer(buffer: &mut [u8], at: usize, change: Change)
    requires { at ≤ most_bytes }
    ensures { buffer.new ≡ put buffer.old at (trailer_bytes Long change) }
{
    wire::write32(buffer, at, change.place);
    wire::write32(buffer, at + 4, change.altered);
    wire::write32(buffer, at + 8, change.first);
    wire::write32(buffer, at + 12, change.second);
    wire::write32(buffer, at + 16, change.third);
    wire::write32(buffer, at + 20, change.before);
    wire::write32(buffer, at + 24, change.previous);
    wire::write32(buffer, at + 28, change.desk);
    wire::write32(buffer, at + 32, LONG_CLOSING);
}

// The desk of a trailer: an old one is desk 0's.
fn desk_at(image: &[u8], at: usize, form: Form) -> usize
    requires { at ≤ most_bytes }
    ensures { result ≡ desk_at form image.now at }
{
    match form {
        Form::Old => 0,
        Form::Long => wire::read32(image, at + 28),
    }
}

pub(crate) fn read_trailer(image: &[u8], at: usize, form: Form) -> Change
    requires { at ≤ most_bytes }
    ensures { result ≡ trailer_at form image.now at }
{
    Change {
        place: wire::read32(image, at),
        altered: wire::read32(image, at + 4),
        first: wire::read32(image, at + 8),
        second: wire::read32(image, at + 12),
        third: wire::read32(image, at + 16),
        before: wire::read32(image, at + 20),
        previous: wire::read32(image, at + 24),
        desk: desk_at(image, at, form),
    }
}

// Puts the old bytes of a change back.
pub(crate) fn write_back(buffer: &mut [u8], change: Change)
    requires { change.place ≤ most_bytes }
    ensures { buffer.new ≡ put buffer.old change.place (old_bytes change) }
{
    let place = change.place;
    wire::write32(buffer, place, change.first);
    if change.altered == SLOT {
        wire::write32(buffer, place + 4, change.second);
        wire::write32(buffer, place + 8, change.third);
    }
}

// Whether a change is of a slot or a next field of the present directory.
fn is_placed(image: &[u8], blocks: usize, change: Change) -> bool
    requires { Opens image.now blocks }
    ensures { result ≡ place_known image.now change }
{
    match change.altered {
        SLOT => has_slot(image, blocks, change.place),
        LINK => has_link(image, blocks, change.place) && change.second == 0 && change.third == 0,
        _ => false,
    }
}

// Whether a trailer at t speaks of a slot or a next field of the present directory that lies inside the length before it.
pub(crate) fn is_known(image: &[u8], blocks: usize, t: usize, change: Change) -> bool
    requires { Opens image.now blocks × (change.place < 4294967296) }
    ensures { result ≡ known image.now t change }
{
    let before = change.before;
    before <= t && is_placed(image, blocks, change) && change.place + change.altered <= before
}
