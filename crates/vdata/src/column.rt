// Columns of Vdatas: one component of a field in every record, in the element of tag 1963 that has the head's reference.
ghost use Rattle.std.specs.Prelude.{◌≡◌, ◌+◌, ◌*◌, ◌≤◌, ◌<◌, length};
ghost use Rattle.std.proofs.lemmas.List.Edits.{sets};
ghost use Rattle.answer.specs.Lent.{Does};
ghost use Rattle.directory.specs.Lookup.{find, find_in};
ghost use Rattle.records.specs.Readings.{record_bytes};
ghost use Rattle.records.specs.Types as Types;
ghost use Rattle.vhead.specs.Heads as Heads;
ghost use Rattle.vhead.specs.Limits.{head_tag};
ghost use Rattle.vdata.specs.Limits.{values_tag};
ghost use Rattle.vdata.specs.Values as Values;
ghost use Rattle.vdata.specs.Columns as Columns;
ghost use Rattle.vdata.specs.Steps as Steps;

use super::format::VALUES_TAG;
use super::kind::Kind;
use super::value::{check_field, place};
use super::{inside, kind};
use answer::Refusal;
use answer::refusals::Rule;
use records::scalar;
use storage::element;
use vhead::field::Numbers;
use vhead::format::HEAD_TAG;
use vhead::head;
use vhead::head::Head;
use wire::ByteOrder;

// The kind of a column's values, and how many records there are.
#[derive(Clone, Copy, PartialEq, Eq)]
pub struct Column {
    pub kind: Kind,
    pub records: usize,
}

// The greatest pattern of a type that is no negative number's.
#[tactic(auto, using(crate::proofs::Patterns::splits_signed, crate::proofs::Patterns::splits_others), unfolding(records::specs::Types::row_of))]
fn greatest(code: usize) -> usize
    ensures { Steps.Splits code result }
{
    match scalar::base_type(code) {
        20 => 127,
        22 => 32767,
        24 => 2147483647,
        _ => usize::MAX,
    }
}

// The bits of a value, by its pattern and the greatest of its type that is no negative number's.
#[tactic(auto, unfolding(crate::specs::Steps::extended))]
fn bits(n: usize, most: usize) -> u64
    requires { most < n → (n ≤ 2 * most + 1) × (most ≤ 2147483647) }
    ensures { result ≡ Steps.extended most n }
{
    if n <= most {
        n as u64
    } else {
        (n + (18446744073709551614 - 2 * most)) as u64
    }
}

// How far the values of a field lie apart from record to record.
#[tactic(auto, unfolding(crate::specs::Steps::step_of))]
fn step(h: Head, f: Numbers) -> usize
    ensures { result ≡ Steps.step_of h f }
{
    match h.interlace {
        0 => h.record_size,
        _ => f.size,
    }
}

// Values of a type among bytes: so many, the first at a place and each so far from the one before.
#[derive(Drop)]
struct Laid<'a> {
    part: &'a [u8],
    code: usize,
    first: usize,
    step: usize,
    count: usize,
    ghost there: { Steps.AllThere code first step count part.now },
}

impl Laid<'_> {
    // Puts their bits into the front of a list. Width and byte order are the type's; each call names them as constants, so that the compiler
    // makes a loop of its own for it.
    fn put_by<const WIDTH: usize>(&self, order: ByteOrder, out: &mut [u64])
        requires { (WIDTH ≡ Types.width_of self.now.code) × (order ≡ Types.byte_order_of self.now.code) × (self.now.count ≤ length out.old) }
        ensures { out.new ≡ sets out.old 0 (Steps.bits_from self.now.code self.now.part.now self.now.first self.now.step self.now.count) }
    {
        let most = greatest(self.code);
        for i in 0..self.count {
            let n = inside::read_number(self.part, self.first + i * self.step, WIDTH, order);
            out[i] = bits(n, most);
        }
    }

    // The same, by the type alone.
    fn put(&self, out: &mut [u64])
        requires { self.now.count ≤ length out.old }
        ensures { out.new ≡ sets out.old 0 (Steps.bits_from self.now.code self.now.part.now self.now.first self.now.step self.now.count) }
    {
        match scalar::byte_order(self.code) {
            ByteOrder::BigEndian => match scalar::width(self.code) {
                1 => self.put_by::<1>(ByteOrder::BigEndian, out),
                2 => self.put_by::<2>(ByteOrder::BigEndian, out),
                4 => self.put_by::<4>(ByteOrder::BigEndian, out),
                _ => self.put_by::<8>(ByteOrder::BigEndian, out),
            },
            ByteOrder::LittleEndian => match scalar::width(self.code) {
                1 => self.put_by::<1>(ByteOrder::LittleEndian, out),
                2 => self.put_by::<2>(ByteOrder::LittleEndian, out),
                4 => self.put_by::<4>(ByteOrder::LittleEndian, out),
                _ => self.put_by::<8>(ByteOrder::LittleEndian, out),
            },
        }
    }
}

// Puts a component of a field in every record into the front of a list.
fn put_column(values: &[u8], h: Head, f: Numbers, component: usize, out: &mut [u64])
    requires { Steps.Reach h f 0 component × (h.records ≤ length out.old)
        × Steps.AllThere f.code (Values.place_of h f 0 component) (Steps.step_of h f) h.records values.now }
    ensures { out.new ≡ sets out.old 0
        (Steps.bits_from f.code values.now (Values.place_of h f 0 component) (Steps.step_of h f) h.records) }
{
    let laid = Laid {
        part: values,
        code: f.code,
        first: place(h, f, 0, component),
        step: step(h, f),
        count: h.records,
    };
    laid.put(out);
}

// Reads the column after a sound head.
fn read_after(
    image: &[u8],
    blocks: usize,
    reference: u16,
    part: &[u8],
    field: usize,
    component: usize,
    out: &mut [u64],
) -> Result<Column, Refusal>
    requires { Heads.head_fault part.now ≡ 0 }
    ensures { let s = image.now in let e = part.now in let values = find_in s blocks values_tag reference in
        Does (Columns.column_after s e values field component (length out.old)) (Columns.column_in e (record_bytes s values) field component)
        out.old out.new (Columns.column_numbers result) }
{
    let h = head::parse(part);
    check_field(h, part, field, component)?;
    let f = head::numbers_at(part, field as u16);
    let kind = kind::of_type(f.code);
    if h.records == 0 {
        return Ok(Column { kind, records: 0 });
    }
    let found = element::locate(image, blocks, VALUES_TAG, reference)?;
    let values = wire::part(image, found.offset, found.length);
    if values.len() < h.records * h.record_size {
        return Err(Rule::Record.at(found.slot));
    }
    if out.len() < h.records {
        return Err(Rule::Small.at(0));
    }
    put_column(values, h, f, component, out);
    Ok(Column {
        kind,
        records: h.records,
    })
}

// Reads a component of a field in every record of the Vdata of a reference to the front of a lent list, in a chain of so many blocks.
pub fn read_in(
    image: &[u8],
    blocks: usize,
    reference: u16,
    field: u64,
    component: u64,
    out: &mut [u64],
) -> Result<Column, Refusal>
    ensures { let s = image.now in
        let head = find_in s blocks head_tag reference in let values = find_in s blocks values_tag reference in
        Does (Columns.column_found s head values field component (length out.old))
        (Columns.column_in (record_bytes s head) (record_bytes s values) field component)
        out.old out.new (Columns.column_numbers result) }
{
    let found = element::locate(image, blocks, HEAD_TAG, reference)?;
    let part = wire::part(image, found.offset, found.length);
    if let Err(rule) = head::check(part) {
        return Err(rule.at(found.slot));
    }
    read_after(
        image,
        blocks,
        reference,
        part,
        field as usize,
        component as usize,
        out,
    )
}

// The same in an image that is opened first.
pub fn read(
    image: &[u8],
    reference: u16,
    field: u64,
    component: u64,
    out: &mut [u64],
) -> Result<Column, Refusal>
    ensures { let s = image.now in
        Does (Columns.column_of s reference field component (length out.old)) (Columns.column_bits s reference field component)
        out.old out.new (Columns.column_numbers result) }
{
    let opened = directory::open(image);
    let Ok(counts) = opened else {
        return Err(opened.unwrap_err());
    };
    read_in(image, counts.blocks, reference, field, component, out)
}
