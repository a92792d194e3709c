// The C interface of records: number types, dimensions and arrays.
ghost use Rattle.std.specs.Prelude.{◌≡◌, length};
ghost use Rattle.directory.specs.Lookup.{find};
ghost use Rattle.records.specs.Limits.{array_tag};
ghost use Rattle.records.specs.Readings.{record_bytes};
ghost use Rattle.records.specs.Packings.{packed_numbers, Packs};
ghost use Rattle.records.specs.NumberTypes.{number_type_numbers, number_type_of, number_type_bytes};
ghost use Rattle.records.specs.Dimensions.{dimension_numbers, dimension_of, dimension_bytes, dimension_pack_fault};
ghost use Rattle.records.specs.Arrays.{array_numbers, array_of, ReadsArray, array_bytes, array_pack_fault};
ghost use Rattle.hdf4.specs.RecordAnswers.{number_type_answer, dimension_answer, dimension_from, array_answer, pack_answer};

use answer::Refusal;
use records::dimension::Dimension;
use records::number_type::NumberType;
use records::{array, dimension, number_type};

// A number type.
#[repr(C)]
#[derive(Clone, Copy, Default)]
pub struct NumberTypeAnswer {
    pub number: u64,
    pub place: u64,
    // The version of the record.
    pub version: u64,
    // C: type. The type's code, as 24 for a signed number of 32 bits.
    pub code: u64,
    // Bits of a number.
    pub width: u64,
    // C: number_class. How the number is written, as 1 for high byte first.
    pub class: u64,
}

// A dimension.
#[repr(C)]
#[derive(Clone, Copy, Default)]
pub struct DimensionAnswer {
    pub number: u64,
    pub place: u64,
    // Columns.
    pub x: u64,
    // Rows.
    pub y: u64,
    // The tag of the number type's record.
    pub type_tag: u64,
    // The reference of the number type's record.
    pub type_ref: u64,
    // Numbers in each point.
    pub elements: u64,
    // 0 by point, 1 by row, 2 by plane.
    pub interlace: u64,
    // The tag of the record of how the image is compressed.
    pub compression_tag: u64,
    // The reference of that record.
    pub compression_ref: u64,
}

// An array; its lists are in the tables.
#[repr(C)]
#[derive(Clone, Copy, Default)]
pub struct ArrayAnswer {
    pub number: u64,
    pub place: u64,
    // How many sizes; there is one pair more.
    pub rank: u64,
}

// What was packed.
#[repr(C)]
#[derive(Clone, Copy, Default)]
pub struct PackAnswer {
    pub number: u64,
    pub place: u64,
    // Bytes of the record.
    pub length: u64,
}

impl From<Result<NumberType, Refusal>> for NumberTypeAnswer {
    ghost from_gives = { λ read answer. number_type_answer answer ≡ number_type_numbers read };

    fn from(read: Result<NumberType, Refusal>) -> NumberTypeAnswer {
        match read {
            Ok(x) => NumberTypeAnswer {
                version: x.version as u64,
                code: x.code as u64,
                width: x.width as u64,
                class: x.class as u64,
                ..NumberTypeAnswer::default()
            },
            Err(refusal) => NumberTypeAnswer {
                number: refusal.rule.number() as u64,
                place: refusal.place as u64,
                ..NumberTypeAnswer::default()
            },
        }
    }
}

impl From<Result<Dimension, Refusal>> for DimensionAnswer {
    ghost from_gives = { λ read answer. dimension_answer answer ≡ dimension_numbers read };

    fn from(read: Result<Dimension, Refusal>) -> DimensionAnswer {
        match read {
            Ok(d) => DimensionAnswer {
                x: d.x as u64,
                y: d.y as u64,
                type_tag: d.type_tag as u64,
                type_ref: d.type_ref as u64,
                elements: d.elements as u64,
                interlace: d.interlace as u64,
                compression_tag: d.compression_tag as u64,
                compression_ref: d.compression_ref as u64,
                ..DimensionAnswer::default()
            },
            Err(refusal) => DimensionAnswer {
                number: refusal.rule.number() as u64,
                place: refusal.place as u64,
                ..DimensionAnswer::default()
            },
        }
    }
}

impl From<Result<usize, Refusal>> for ArrayAnswer {
    ghost from_gives = { λ read answer. array_answer answer ≡ array_numbers read };

    fn from(read: Result<usize, Refusal>) -> ArrayAnswer {
        match read {
            Ok(rank) => ArrayAnswer {
                rank: rank as u64,
                ..ArrayAnswer::default()
            },
            Err(refusal) => ArrayAnswer {
                number: refusal.rule.number() as u64,
                place: refusal.place as u64,
                ..ArrayAnswer::default()
            },
        }
    }
}

impl From<Result<usize, Refusal>> for PackAnswer {
    ghost from_gives = { λ packed answer. pack_answer answer ≡ packed_numbers packed };

    fn from(packed: Result<usize, Refusal>) -> PackAnswer {
        match packed {
            Ok(length) => PackAnswer {
                length: length as u64,
                ..PackAnswer::default()
            },
            Err(refusal) => PackAnswer {
                number: refusal.rule.number() as u64,
                place: refusal.place as u64,
                ..PackAnswer::default()
            },
        }
    }
}

// Records.
//
// A record is an element in plain storage: an extended one is refused at its slot, as is one that breaks its layout. Lists are written to
// the fronts of lent tables, a pair as its tag and its reference, one after the other; what is behind them stays as it was. A table that is
// too short is refused with `SMALL`.
//
// Packing writes a record's bytes to the front of a lent output. What was read gives back the record's own bytes, up to its last field.

// Reads a number type, tag 106: four bytes of any values.
#[unsafe(no_mangle)]
pub extern "C" fn hdf4_read_number_type(image: &[u8], reference: u16) -> NumberTypeAnswer
    ensures { number_type_answer result ≡ number_type_of image.now reference }
{
    number_type::read(image, reference).into()
}

// Packs a number type: 4 bytes.
#[unsafe(no_mangle)]
pub extern "C" fn hdf4_pack_number_type(
    version: u8,
    code: u8,
    width: u8,
    class: u8,
    out: &mut [u8],
) -> PackAnswer
    ensures { Packs 0 (number_type_bytes (record { version = version; code = code; width = width; class = class }))
        out.old out.new (pack_answer result) }
{
    let x = NumberType {
        version,
        code,
        width,
        class,
    };
    number_type::pack(x, out).into()
}

// Reads a dimension, of tag 300, 307 or 308. The tag may be any, and is looked up by its base tag.
#[unsafe(no_mangle)]
pub extern "C" fn hdf4_read_dimension(image: &[u8], tag: u16, reference: u16) -> DimensionAnswer
    ensures { dimension_answer result ≡ dimension_of image.now tag reference }
{
    dimension::read(image, tag, reference).into()
}

// Packs a dimension: 20 bytes.
#[unsafe(no_mangle)]
pub extern "C" fn hdf4_pack_dimension(
    x: u32,
    y: u32,
    type_tag: u16,
    type_ref: u16,
    elements: u16,
    interlace: u16,
    compression_tag: u16,
    compression_ref: u16,
    out: &mut [u8],
) -> PackAnswer
    ensures { let d = dimension_from x y type_tag type_ref elements interlace compression_tag compression_ref in
        Packs (dimension_pack_fault d) (dimension_bytes d) out.old out.new (pack_answer result) }
{
    let d = Dimension {
        x,
        y,
        type_tag,
        type_ref,
        elements,
        interlace,
        compression_tag,
        compression_ref,
    };
    dimension::pack(d, out).into()
}

// Reads an array, tag 701: its sizes, and one pair more, the data's type first.
#[unsafe(no_mangle)]
pub extern "C" fn hdf4_read_array(
    image: &[u8],
    reference: u16,
    sizes: &mut [u32],
    pairs: &mut [u16],
) -> ArrayAnswer
    ensures { let s = image.now in
        ReadsArray (array_of s reference (length sizes.old) (length pairs.old)) (record_bytes s (find s array_tag reference))
        sizes.old sizes.new pairs.old pairs.new (array_answer result) }
{
    array::read(image, reference, sizes, pairs).into()
}

// Packs an array: 6 bytes, and 8 for each size.
#[unsafe(no_mangle)]
pub extern "C" fn hdf4_pack_array(sizes: &[u32], pairs: &[u16], out: &mut [u8]) -> PackAnswer
    ensures { Packs (array_pack_fault (length sizes.now) (length pairs.now))
        (array_bytes sizes.now pairs.now) out.old out.new (pack_answer result) }
{
    array::pack(sizes, pairs, out).into()
}
