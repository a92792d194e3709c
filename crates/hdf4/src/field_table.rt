// The fields of a Vdata, one struct a field, in a lent table.
ghost use Rattle.std.specs.Prelude.{◌≡◌, ◌<◌, length};
ghost use Rattle.answer.specs.Lent.{Does};
ghost use Rattle.vhead.specs.Heads.{head_within};
ghost use Rattle.hdf4.specs.VsetAnswers.{vdata_answer};
ghost use Rattle.hdf4.specs.FieldTable.{structs_of};
ghost use Rattle.hdf4.specs.Steps.{Lies, ReadsFields, field_in};

use super::vset_calls::{VdataAnswer, vdata_answer};
use vhead::head;

// A field of a Vdata.
#[repr(C)]
#[derive(Clone, Copy, Default)]
pub struct Field {
    // C: type. The type's code, as it is stored.
    pub code: u16,
    // Bytes of the field in a record.
    pub size: u16,
    // Bytes of the fields before it.
    pub offset: u16,
    // Numbers of the field in a record.
    pub order: u16,
    // C: name_offset. Where the field's name stands in the image.
    pub name: u32,
    // Bytes of the name.
    pub name_length: u32,
}

// The numbers to answer, where the head's record starts in the image and how many bytes it has, and how many fields go to the table.
#[derive(Clone, Copy)]
pub struct Reading {
    pub answer: VdataAnswer,
    pub start: usize,
    pub size: usize,
    pub fields: usize,
}

fn read_head(image: &[u8], reference: u16, room: usize) -> Reading
    ensures { ReadsFields image.now reference room result }
{
    let read = head::find(image, reference, room);
    let answer = vdata_answer(read);
    match read {
        Ok(found) => Reading {
            answer,
            start: found.start,
            size: found.size,
            fields: found.head.fields,
        },
        Err(_) => Reading {
            answer,
            start: 0,
            size: 0,
            fields: 0,
        },
    }
}

fn field_at(image: &[u8], r: Reading, i: usize) -> Field
    requires { Lies image.now r × (i < r.fields) }
    ensures { result ≡ field_in image.now r i }
{
    let start = r.start;
    let f = head::field(wire::part(image, start, r.size), i as u16);
    Field {
        code: f.numbers.code as u16,
        size: f.numbers.size as u16,
        offset: f.numbers.offset as u16,
        order: f.numbers.order as u16,
        name: (start + f.name) as u32,
        name_length: f.length as u32,
    }
}

// Reads the head of a Vdata as hdf4_read_vdata does, to one table with an entry a field. It is refused with `SMALL` where there are more
// fields than entries.
#[unsafe(no_mangle)]
pub extern "C" fn hdf4_read_fields(image: &[u8], reference: u16, table: &mut [Field]) -> VdataAnswer
    ensures { Does (head_within image.now reference (length table.old)) (structs_of image.now reference)
        table.old table.new (vdata_answer result) }
{
    let r = read_head(image, reference, table.len());
    for i in 0..r.fields {
        table[i] = field_at(image, r, i);
    }
    r.answer
}
