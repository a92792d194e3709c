// Heads of Vdatas, tag 1962.
ghost use Rattle.std.specs.Prelude.{◌≡◌, ℕ, ◌+◌, ◌*◌, ◌/◌, ◌≤◌, ◌<◌, min, ◌&&◌, eqb, length, sum, OnOk};
ghost use Rattle.std.proofs.lemmas.List.Edits.{sets};
ghost use Rattle.answer.specs.Refusals.{fault_of};
ghost use Rattle.wire.specs.Numbers.{put};
ghost use Rattle.wire.specs.Layouts as Layout;
ghost use Rattle.directory.specs.Lookup.{find, find_in};
ghost use Rattle.records.specs.Packings.{packed_numbers, Packs};
ghost use Rattle.vhead.specs.Limits as Limits;
ghost use Rattle.vhead.specs.Heads as Heads;
ghost use Rattle.vhead.specs.Steps as Steps;

use super::field::Numbers;
use super::format::{HEAD_TAG, MOST_FIELDS, MOST_HEAD_INTERLACE};
use answer::Refusal;
use answer::refusals::Rule;
use directory::format::MOST_BYTES;
use records::scalar::width;
use storage::element;
use vset::column::lay_column;
use vset::format::VERSION;
use vset::tail;
use vset::tail::{Ending, Tail};

// The numbers of a head, where its lists of types, sizes, offsets, orders and names stand in the record, and the fields after them.
#[derive(Clone, Copy, PartialEq, Eq)]
pub struct Head {
    pub interlace: usize,
    pub records: usize,
    pub record_size: usize,
    pub fields: usize,
    pub types: usize,
    pub sizes: usize,
    pub offsets: usize,
    pub orders: usize,
    pub names: usize,
    pub tail: Tail,
}

// The numbers that a head starts with.
#[derive(Clone, Copy, PartialEq, Eq)]
pub struct Start {
    pub interlace: u16,
    pub records: u32,
    pub record_size: u16,
}

// A field: its numbers, and where its name stands in the record and how long it is.
#[derive(Clone, Copy, PartialEq, Eq)]
pub struct NamedField {
    pub numbers: Numbers,
    pub name: usize,
    pub length: usize,
}

// A head, where its record starts in the image, and how many bytes that has.
#[derive(Clone, Copy, PartialEq, Eq)]
pub struct Found {
    pub start: usize,
    pub size: usize,
    pub head: Head,
}

// What was found in the fields judged so far: whether every order is at least 1, every type known, every size and offset right; and the
// sum of the sizes.
#[derive(Clone, Copy, PartialEq, Eq)]
pub struct Judged {
    pub orders: bool,
    pub types: bool,
    pub sizes: bool,
    pub sum: usize,
}

// Whether a field whose type has so many bytes has the size of its order and stands after the fields before it.
fn fits(f: Numbers, width: usize, sum: usize) -> bool
    requires { (f.order < 65536) × (width ≤ 8) }
    ensures { result ≡ (eqb f.size (f.order * width) && eqb f.offset sum) }
{
    f.size == f.order * width && f.offset == sum
}

// One field more.
fn judge(so_far: Judged, f: Numbers) -> Judged
    requires { (so_far.sum < 4294967296) × Steps.Narrow f }
    ensures { result ≡ Steps.judge so_far f }
{
    let width = width(f.code);
    Judged {
        orders: so_far.orders && 1 <= f.order,
        types: so_far.types && 1 <= width,
        sizes: so_far.sizes && fits(f, width, so_far.sum),
        sum: so_far.sum + f.size,
    }
}

// The rules of fields so judged, with a record size.
#[tactic(auto, unfolding(crate::specs::Steps::verdict, answer::specs::Search::must))]
fn verdict(j: Judged, record_size: usize) -> Result<(), Rule>
    ensures { fault_of result ≡ Steps.verdict j record_size }
{
    if !j.orders {
        return Err(Rule::Record);
    }
    if !j.types {
        return Err(Rule::Type);
    }
    if !j.sizes || record_size != j.sum {
        return Err(Rule::Record);
    }
    Ok(())
}

pub fn parse(part: &[u8]) -> Head
    ensures { result ≡ Layout.read Heads.head part.now 0 }
{
    let fields = wire::read16(part, 8);
    let names = 10 + 8 * fields;
    Head {
        interlace: wire::read16(part, 0),
        records: wire::read32(part, 2),
        record_size: wire::read16(part, 6),
        fields,
        types: 10,
        sizes: 10 + 2 * fields,
        offsets: 10 + 4 * fields,
        orders: 10 + 6 * fields,
        names,
        tail: tail::parse(part, names as u32, fields as u16),
    }
}

// The numbers of the field of an index, in a record with so many fields.
fn field_at(part: &[u8], fields: usize, i: usize) -> Numbers
    requires { (fields ≡ (Heads.head_in part.now).fields) × (fields < 65536) × (i < 65536) }
    ensures { (result ≡ Heads.field_at part.now (Heads.head_in part.now) i) × Steps.Narrow result }
{
    let at = 10 + 2 * i;
    let step = 2 * fields;
    Numbers {
        code: wire::read16(part, at),
        size: wire::read16(part, at + step),
        offset: wire::read16(part, at + 2 * step),
        order: wire::read16(part, at + 3 * step),
    }
}

// The rules of so many fields, of which a closure gives each by its index.
fn check_fields<F: Fn(usize) -> Numbers>(
    field: F,
    count: usize,
    record_size: usize,
) -> Result<(), Rule>
    ghost at: { ℕ → Numbers }
    requires called { (i : _) → i < count → F.pre field i }
    requires gives { (i : _) (f : _) → i < count → F.post field i f → (f ≡ at i) × Steps.Narrow f }
    requires few { count ≤ Limits.most_fields }
    ensures { fault_of result ≡ Heads.fields_fault record_size (Heads.fields_from at count 0) }
{
    let mut so_far = Judged {
        orders: true,
        types: true,
        sizes: true,
        sum: 0,
    };
    for i in 0..count {
        so_far = judge(so_far, field(i));
    }
    verdict(so_far, record_size)
}

// The rules of a head's bytes.
#[tactic(auto, using(crate::proofs::Heads::head_ends), unfolding(crate::specs::Heads::head_fault, answer::specs::Search::must))]
pub fn check(part: &[u8]) -> Result<(), Rule>
    ensures { fault_of result ≡ Heads.head_fault part.now }
{
    let head = parse(part);
    if part.len() < head.tail.end {
        return Err(Rule::Record);
    }
    if head.tail.version != VERSION {
        return Err(Rule::Record);
    }
    if MOST_HEAD_INTERLACE < head.interlace {
        return Err(Rule::Record);
    }
    if MOST_FIELDS < head.fields {
        return Err(Rule::Record);
    }
    check_fields(
        |i| field_at(part, head.fields, i),
        head.fields,
        head.record_size,
    )
}

// Puts type, size, offset and order of each field into the front of a list.
fn put_fields(part: &[u8], fields: usize, list: &mut [u16])
    requires { (fields ≡ (Heads.head_in part.now).fields) × (fields ≤ Limits.most_fields) × (4 * fields ≤ length list.old) }
    ensures { list.new ≡ sets list.old 0 (Heads.head_fields part.now) }
{
    for i in 0..fields {
        let f = field_at(part, fields, i);
        let row = 4 * i;
        list[row] = f.code as u16;
        list[row + 1] = f.size as u16;
        list[row + 2] = f.offset as u16;
        list[row + 3] = f.order as u16;
    }
}

// Puts where the name of each field stands in the image and how long it is into the front of a list.
fn put_names(part: &[u8], start: usize, fields: usize, list: &mut [u32])
    requires { (fields ≡ (Heads.head_in part.now).fields) × (fields ≤ Limits.most_fields) × (2 * fields ≤ length list.old)
        × (start ≤ 2147483647) }
    ensures { list.new ≡ sets list.old 0 (Heads.head_names start part.now) }
{
    let mut at = 10 + 8 * fields;
    for i in 0..fields {
        let length = wire::read16(part, at);
        list[2 * i] = (start + (at + 2)) as u32;
        list[2 * i + 1] = length as u32;
        at += 2 + length;
    }
}

// The numbers of the field of an index, in a record.
pub fn numbers_at(part: &[u8], i: u16) -> Numbers
    ensures { (result ≡ Heads.field_at part.now (Heads.head_in part.now) i) × Steps.Narrow result }
{
    field_at(part, wire::read16(part, 8), i as usize)
}

// The field of an index, in a record.
pub fn field(part: &[u8], i: u16) -> NamedField
    ensures { (result ≡ Heads.named_field part.now i) × Steps.Narrow result.numbers × (result.length < 65536) }
{
    let fields = wire::read16(part, 8);
    let at = tail::skip_names(part, (10 + 8 * fields) as u32, i);
    NamedField {
        numbers: field_at(part, fields, i as usize),
        name: at + 2,
        length: wire::read16(part, at),
    }
}

// Finds the head of a reference, where there is room for so many fields, in a chain of so many blocks.
pub fn find_in(image: &[u8], blocks: usize, reference: u16, room: usize) -> Result<Found, Refusal>
    ensures answer { let s = image.now in
        Heads.head_numbers result ≡ Heads.unless_long 12 s (Heads.head_at s (find_in s blocks Limits.head_tag reference) room) }
    ensures held { let s = image.now in Steps.Held s (find_in s blocks Limits.head_tag reference) room result }
{
    if MOST_BYTES < image.len() {
        return Err(Rule::TooLong.at(0));
    }
    let found = element::locate(image, blocks, HEAD_TAG, reference)?;
    let part = wire::part(image, found.offset, found.length);
    if let Err(rule) = check(part) {
        return Err(rule.at(found.slot));
    }
    let head = parse(part);
    if room < head.fields {
        return Err(Rule::Small.at(0));
    }
    Ok(Found {
        start: found.offset,
        size: part.len(),
        head,
    })
}

// The same in an image that is opened first.
pub fn find(image: &[u8], reference: u16, room: usize) -> Result<Found, Refusal>
    ensures answer { Heads.head_numbers result ≡ Heads.head_within image.now reference room }
    ensures held { let s = image.now in Steps.Held s (find s Limits.head_tag reference) room result }
{
    let opened = directory::open(image);
    let Ok(counts) = opened else {
        return Err(opened.unwrap_err());
    };
    find_in(image, counts.blocks, reference, room)
}

// Reads the head of a reference, in a chain of so many blocks: its numbers, four numbers a field to a lent list, and where the names
// stand to another.
pub fn read_in(
    image: &[u8],
    blocks: usize,
    reference: u16,
    fields: &mut [u16],
    names: &mut [u32],
) -> Result<Found, Refusal>
    ensures answer { let s = image.now in let found = find_in s blocks Limits.head_tag reference in
        let room = min (length fields.old / 4) (length names.old / 2) in
        Heads.ReadsHead (Heads.unless_long 12 s (Heads.head_at s found room)) s found
        fields.old fields.new names.old names.new (Heads.head_numbers result) }
    ensures held { let s = image.now in Steps.Held s (find_in s blocks Limits.head_tag reference)
        (min (length fields.old / 4) (length names.old / 2)) result }
{
    let room = (fields.len() / 4).min(names.len() / 2);
    let found = find_in(image, blocks, reference, room)?;
    let part = wire::part(image, found.start, found.size);
    put_fields(part, found.head.fields, fields);
    put_names(part, found.start, found.head.fields, names);
    Ok(found)
}

// The same in an image that is opened first.
pub fn read(
    image: &[u8],
    reference: u16,
    fields: &mut [u16],
    names: &mut [u32],
) -> Result<Found, Refusal>
    ensures answer { let s = image.now in
        Heads.ReadsHead (Heads.head_of s reference (length fields.old) (length names.old)) s (find s Limits.head_tag reference)
        fields.old fields.new names.old names.new (Heads.head_numbers result) }
    ensures held { let s = image.now in Steps.Held s (find s Limits.head_tag reference)
        (min (length fields.old / 4) (length names.old / 2)) result }
{
    let opened = directory::open(image);
    let Ok(counts) = opened else {
        return Err(opened.unwrap_err());
    };
    read_in(image, counts.blocks, reference, fields, names)
}

// The numbers of the field of a row, in rows of type, size, offset and order.
fn row_at(rows: &[u16], i: usize) -> Numbers
    requires { (4 * i + 4 ≤ length rows.now) × (i < 65536) }
    ensures { (result ≡ Heads.row_at rows.now i) × Steps.Narrow result }
{
    let row = 4 * i;
    Numbers {
        code: rows[row] as usize,
        size: rows[row + 1] as usize,
        offset: rows[row + 2] as usize,
        order: rows[row + 3] as usize,
    }
}

fn total(lengths: &[u16]) -> usize
    requires { length lengths.now ≤ Limits.most_fields }
    ensures { result ≡ sum lengths.now }
{
    lengths.iter().map(|&n| n as usize).sum()
}

// The rules of the parts of a head to be packed.
#[tactic(auto, unfolding(crate::specs::Heads::head_pack_fault, answer::specs::Search::must))]
fn check_pack(
    b: Start,
    rows: &[u16],
    lengths: &[u16],
    names: usize,
    name: usize,
    class: usize,
    version: usize,
) -> Result<(), Rule>
    ensures fault { fault_of result ≡ Heads.head_pack_fault b rows.now lengths.now names name class version }
    ensures packable { OnOk result (Steps.Packable lengths.now names name class) }
{
    if MOST_FIELDS < lengths.len() {
        return Err(Rule::Record);
    }
    if rows.len() != 4 * lengths.len() {
        return Err(Rule::Record);
    }
    if names != total(lengths) {
        return Err(Rule::Record);
    }
    if MOST_HEAD_INTERLACE < b.interlace as usize {
        return Err(Rule::Record);
    }
    tail::check_pack(name, class, version)?;
    check_fields(|i| row_at(rows, i), lengths.len(), b.record_size as usize)
}

// Lays the names, which stand one after the other, each with its length before it, from a place of a buffer on.
fn lay_names(out: &mut [u8], at: usize, lengths: &[u16], names: &[u8])
    requires { (length names.now ≡ sum lengths.now)
        × (at + 2 * length lengths.now + length names.now ≤ length out.old) }
    ensures { out.new ≡ put out.old at (Steps.names_bytes lengths.now names.now) }
{
    let mut from = 0;
    for (i, &n) in lengths.iter().enumerate() {
        let n = n as usize;
        let to = at + 2 * i + from;
        wire::write16(out, to, n);
        wire::write_bytes(out, to + 2, wire::part(names, from, n));
        from += n;
    }
}

// Lays the numbers that a head starts with into the front of a buffer.
fn lay_start(out: &mut [u8], b: Start, count: usize)
    ensures { out.new ≡ put out.old 0 (Steps.start_bytes b count) }
{
    wire::write16(out, 0, b.interlace as usize);
    wire::write32(out, 2, b.records as usize);
    wire::write16(out, 6, b.record_size as usize);
    wire::write16(out, 8, count);
}

// Lays the types, sizes, offsets and orders of so many rows after these.
fn lay_columns(out: &mut [u8], rows: &[u16], count: u16)
    ensures { out.new ≡ put out.old 10 (Steps.columns_bytes rows.now count) }
{
    let n = count as u32;
    lay_column(out, 10, rows, 0, 4, count);
    lay_column(out, 10 + 2 * n, rows, 1, 4, count);
    lay_column(out, 10 + 4 * n, rows, 2, 4, count);
    lay_column(out, 10 + 6 * n, rows, 3, 4, count);
}

// Packs a head into the front of a lent buffer: rows of type, size, offset and order of each field, the lengths of their names, and the
// names one after the other.
pub fn pack(
    b: Start,
    rows: &[u16],
    lengths: &[u16],
    names: &[u8],
    name: &[u8],
    class: &[u8],
    x: Ending,
    out: &mut [u8],
) -> Result<usize, Refusal>
    ensures { let rows = rows.entry.now in let lengths = lengths.entry.now in let all = names.now in
        let name = name.entry.now in let class = class.entry.now in
        Packs (Heads.head_pack_fault b rows lengths (length all) (length name) (length class) x.version)
        (Heads.head_bytes b rows lengths all name class x) out.old out.new (packed_numbers result) }
{
    check_pack(
        b,
        rows,
        lengths,
        names.len(),
        name.len(),
        class.len(),
        x.version as usize,
    )?;
    let count = lengths.len();
    let length = 22 + 10 * count + names.len() + name.len() + class.len();
    if out.len() < length {
        return Err(Rule::Small.at(0));
    }
    lay_start(out, b, count);
    lay_columns(out, rows, count as u16);
    lay_names(out, 10 + 8 * count, lengths, names);
    tail::lay(out, 10 + 10 * count + names.len(), name, class, x);
    Ok(length)
}
