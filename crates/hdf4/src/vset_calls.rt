// The C interface of Vgroups and Vdatas.
ghost use Rattle.std.specs.Prelude.{◌≡◌, [], ◌∷◌, length};
ghost use Rattle.answer.specs.Answer.{grant};
ghost use Rattle.answer.specs.Lent.{Does};
ghost use Rattle.directory.specs.Lookup.{find};
ghost use Rattle.records.specs.Readings.{record_bytes};
ghost use Rattle.records.specs.Packings.{Packs};
ghost use Rattle.vgroup.specs.Limits.{group_tag};
ghost use Rattle.vgroup.specs.Groups.{group_of, group_members, group_bytes, group_pack_fault};
ghost use Rattle.vgroup.specs.Listings.{pairs_numbers, listing_of, pairs_of};
ghost use Rattle.vhead.specs.Limits.{head_tag};
ghost use Rattle.vhead.specs.Heads.{head_of, ReadsHead, head_numbers, head_bytes, head_pack_fault};
ghost use Rattle.vdata.specs.Patterns.{value_kind, value_bits};
ghost use Rattle.vdata.specs.Values.{value_of};
ghost use Rattle.vdata.specs.Columns.{column_numbers, column_of, column_bits};
ghost use Rattle.hdf4.specs.RecordAnswers.{pack_answer};
ghost use Rattle.hdf4.specs.VsetAnswers.{group_answer, vdata_answer, value_answer, column_answer, HasBits, pairs_answer, NamesFit, ending_from, start_from};

use super::limits::{FLOAT32, FLOAT64, SIGNED, UNSIGNED};
use super::record_calls::PackAnswer;
use answer::Refusal;
use vdata::column::Column;
use vdata::value::Value;
use vdata::{column, value};
use vgroup::{group, listing};
use vhead::head;
use vhead::head::{Found, Start};
use vset::tail::Ending;

// A Vgroup; its members are in the table.
#[repr(C)]
#[derive(Clone, Copy, Default)]
pub struct GroupAnswer {
    pub number: u64,
    pub place: u64,
    // How many members.
    pub members: u64,
    // C: name_offset. Where the name stands in the image.
    pub name: u64,
    // Bytes of the name.
    pub name_length: u64,
    // C: class_offset. Where the class stands in the image.
    pub class: u64,
    // Bytes of the class.
    pub class_length: u64,
    // The extension's tag.
    pub extension_tag: u64,
    // The extension's reference.
    pub extension_ref: u64,
    // The version: 3.
    pub version: u64,
    // The field named more.
    pub more: u64,
}

// The head of a Vdata; its fields are in the tables.
#[repr(C)]
#[derive(Clone, Copy, Default)]
pub struct VdataAnswer {
    pub number: u64,
    pub place: u64,
    // 0 where the values stand by record, 1 where they stand by field.
    pub interlace: u64,
    // How many records.
    pub records: u64,
    // Bytes of a record.
    pub record_size: u64,
    // How many fields.
    pub fields: u64,
    // C: name_offset. Where the name stands in the image.
    pub name: u64,
    // Bytes of the name.
    pub name_length: u64,
    // C: class_offset. Where the class stands in the image.
    pub class: u64,
    // Bytes of the class.
    pub class_length: u64,
    // The extension's tag.
    pub extension_tag: u64,
    // The extension's reference.
    pub extension_ref: u64,
    // The version: 3.
    pub version: u64,
    // The field named more.
    pub more: u64,
}

// A value of a Vdata.
#[repr(C)]
#[derive(Clone, Copy, Default)]
pub struct ValueAnswer {
    pub number: u64,
    pub place: u64,
    // `SIGNED`, `UNSIGNED`, `FLOAT32` or `FLOAT64`.
    pub kind: u64,
    // Of a signed number its two's complement in 64 bits, of a float its own bits.
    pub bits: u64,
}

// What was read of a column of a Vdata.
#[repr(C)]
#[derive(Clone, Copy, Default)]
pub struct ColumnAnswer {
    pub number: u64,
    pub place: u64,
    // `SIGNED`, `UNSIGNED`, `FLOAT32` or `FLOAT64`: that of every value.
    pub kind: u64,
    // How many records: values that were written.
    pub records: u64,
}

// C: hdf4_group_list_answer. What was listed of a Vgroup.
#[repr(C)]
#[derive(Clone, Copy, Default)]
pub struct PairsAnswer {
    pub number: u64,
    pub place: u64,
    // Pairs that were written to the table.
    pub pairs: u64,
}

impl From<Result<Column, Refusal>> for ColumnAnswer {
    ghost from_gives = { λ read answer. column_answer answer ≡ column_numbers read };

    fn from(read: Result<Column, Refusal>) -> ColumnAnswer {
        match read {
            Ok(column) => ColumnAnswer {
                kind: column.kind.number(),
                records: column.records as u64,
                ..ColumnAnswer::default()
            },
            Err(refusal) => ColumnAnswer {
                number: refusal.rule.number() as u64,
                place: refusal.place as u64,
                ..ColumnAnswer::default()
            },
        }
    }
}

impl From<Result<usize, Refusal>> for PairsAnswer {
    ghost from_gives = { λ listed answer. pairs_answer answer ≡ pairs_numbers listed };

    fn from(listed: Result<usize, Refusal>) -> PairsAnswer {
        match listed {
            Ok(pairs) => PairsAnswer {
                pairs: pairs as u64,
                ..PairsAnswer::default()
            },
            Err(refusal) => PairsAnswer {
                number: refusal.rule.number() as u64,
                place: refusal.place as u64,
                ..PairsAnswer::default()
            },
        }
    }
}

// Reads a Vgroup, tag 1965: tag and reference of each member.
#[unsafe(no_mangle)]
pub extern "C" fn hdf4_read_group(image: &[u8], reference: u16, members: &mut [u16]) -> GroupAnswer
    ensures { let s = image.now in
        Does (group_of s reference (length members.old)) (group_members (record_bytes s (find s group_tag reference)))
        members.old members.new (group_answer result) }
{
    match group::read(image, reference, members) {
        Ok(found) => {
            let tail = found.group.tail;
            GroupAnswer {
                members: found.group.members as u64,
                name: (found.start + tail.name) as u64,
                name_length: tail.name_length as u64,
                class: (found.start + tail.class) as u64,
                class_length: tail.class_length as u64,
                extension_tag: tail.extension_tag as u64,
                extension_ref: tail.extension_ref as u64,
                version: tail.version as u64,
                more: tail.more as u64,
                ..GroupAnswer::default()
            }
        }
        Err(refusal) => GroupAnswer {
            number: refusal.rule.number() as u64,
            place: refusal.place as u64,
            ..GroupAnswer::default()
        },
    }
}

// Packs a Vgroup.
#[unsafe(no_mangle)]
pub extern "C" fn hdf4_pack_group(
    members: &[u16],
    name: &[u8],
    class: &[u8],
    extension_tag: u16,
    extension_ref: u16,
    version: u16,
    more: u16,
    out: &mut [u8],
) -> PackAnswer
    ensures { let ms = members.now in let n = name.now in let k = class.now in
        Packs (group_pack_fault (length ms) (length n) (length k) version)
        (group_bytes ms n k (ending_from extension_tag extension_ref version more))
        out.old out.new (pack_answer result) }
{
    let x = Ending {
        extension_tag,
        extension_ref,
        version,
        more,
    };
    group::pack(members, name, class, x, out).into()
}

// Reads the head of a Vdata, tag 1962: type, size, offset and order of each field, and place in the image and length of each field's
// name. A type is given as it is stored, with `LITTLE_ENDIAN` added where numbers stand low byte first. Tables of 4 times and 2 times
// `MOST_FIELDS` entries are always enough.
#[unsafe(no_mangle)]
pub extern "C" fn hdf4_read_vdata(
    image: &[u8],
    reference: u16,
    fields: &mut [u16],
    names: &mut [u32],
) -> VdataAnswer
    ensures { let s = image.now in
        ReadsHead (head_of s reference (length fields.old) (length names.old)) s (find s head_tag reference)
        fields.old fields.new names.old names.new (vdata_answer result) }
{
    vdata_answer(head::read(image, reference, fields, names))
}

// The numbers of a head that was found, or its refusal.
pub(crate) fn vdata_answer(read: Result<Found, Refusal>) -> VdataAnswer
    requires { NamesFit read }
    ensures { vdata_answer result ≡ head_numbers read }
{
    match read {
        Ok(found) => {
            let head = found.head;
            let tail = head.tail;
            VdataAnswer {
                interlace: head.interlace as u64,
                records: head.records as u64,
                record_size: head.record_size as u64,
                fields: head.fields as u64,
                name: (found.start + tail.name) as u64,
                name_length: tail.name_length as u64,
                class: (found.start + tail.class) as u64,
                class_length: tail.class_length as u64,
                extension_tag: tail.extension_tag as u64,
                extension_ref: tail.extension_ref as u64,
                version: tail.version as u64,
                more: tail.more as u64,
                ..VdataAnswer::default()
            }
        }
        Err(refusal) => VdataAnswer {
            number: refusal.rule.number() as u64,
            place: refusal.place as u64,
            ..VdataAnswer::default()
        },
    }
}

// Packs the head of a Vdata. The fields are given by four numbers each, as they are read; by the length of each field's name; and by these
// names one after the other.
#[unsafe(no_mangle)]
pub extern "C" fn hdf4_pack_vdata(
    interlace: u16,
    records: u32,
    record_size: u16,
    fields: &[u16],
    name_lengths: &[u16],
    names: &[u8],
    name: &[u8],
    class: &[u8],
    extension_tag: u16,
    extension_ref: u16,
    version: u16,
    more: u16,
    out: &mut [u8],
) -> PackAnswer
    ensures { let b = start_from interlace records record_size in
        let rows = fields.now in let lengths = name_lengths.now in
        let all = names.now in let n = name.now in let k = class.now in
        Packs (head_pack_fault b rows lengths (length all) (length n) (length k) version)
        (head_bytes b rows lengths all n k (ending_from extension_tag extension_ref version more))
        out.old out.new (pack_answer result) }
{
    let b = Start {
        interlace,
        records,
        record_size,
    };
    let x = Ending {
        extension_tag,
        extension_ref,
        version,
        more,
    };
    head::pack(b, fields, name_lengths, names, name, class, x, out).into()
}

// The kind of a value, and its bits: of a signed number in 64 bits of two's complement.
fn value_answer(v: Value) -> ValueAnswer
    requires { HasBits v }
    ensures { value_answer result ≡ grant (value_kind v ∷ value_bits v ∷ []) }
{
    let (kind, bits) = match v {
        Value::Signed(z) => (SIGNED, z.cast_unsigned()),
        Value::Unsigned(n) => (UNSIGNED, n),
        Value::Float32(x) => (FLOAT32, u64::from(x.to_bits())),
        Value::Float64(x) => (FLOAT64, x.to_bits()),
        Value::Nan32(n) => (FLOAT32, u64::from(n)),
        Value::Nan64(n) => (FLOAT64, n),
    };
    ValueAnswer {
        kind,
        bits,
        ..ValueAnswer::default()
    }
}

// Reads one value of a Vdata, its head of tag 1962 and its data of tag 1963. All indices count from 0. Kind and bits are the number's,
// whichever of its bytes stands first in the image.
#[unsafe(no_mangle)]
pub extern "C" fn hdf4_read_value(
    image: &[u8],
    reference: u16,
    record: u64,
    field: u64,
    component: u64,
) -> ValueAnswer
    ensures { value_answer result ≡ value_of image.now reference «record» field component }
{
    match value::read(image, reference, record, field, component) {
        Ok(v) => value_answer(v),
        Err(refusal) => ValueAnswer {
            number: refusal.rule.number() as u64,
            place: refusal.place as u64,
            ..ValueAnswer::default()
        },
    }
}

// Reads one component of one field in every record of a Vdata, in order: the bits of each value, as hdf4_read_value gives them. There
// must be room for a value of every record. A Vdata without records has a column without values, and needs no data of tag 1963.
#[unsafe(no_mangle)]
pub extern "C" fn hdf4_read_column(
    image: &[u8],
    reference: u16,
    field: u64,
    component: u64,
    out: &mut [u64],
) -> ColumnAnswer
    ensures { let s = image.now in
        Does (column_of s reference field component (length out.old)) (column_bits s reference field component)
        out.old out.new (column_answer result) }
{
    column::read(image, reference, field, component, out).into()
}

// Lists the members of a Vgroup in order, each member of tag 1965 followed by its own members: tag and reference of each. There are at most
// `MOST_PAIRS` pairs, and at most 16 groups nested, the named one included. It keeps 576 bytes of stack, or 264 and 336 for each group
// nested where that is more: 5,632 at the most.
#[unsafe(no_mangle)]
pub extern "C" fn hdf4_list_group(image: &[u8], reference: u16, list: &mut [u16]) -> PairsAnswer
    ensures { let s = image.now in let room = length list.old in
        Does (listing_of s reference room) (pairs_of s reference room) list.old list.new (pairs_answer result) }
{
    listing::list(image, reference, list).into()
}
