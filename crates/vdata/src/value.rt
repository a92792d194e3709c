// Values of Vdatas, in the element of tag 1963 that has the head's reference.
ghost use Rattle.std.specs.Prelude.{◌≡◌, ◌*◌, ◌≤◌, ◌<◌};
ghost use Rattle.wire.specs.Numbers.{ReadsIn};
ghost use Rattle.answer.specs.Refusals.{fault_of};
ghost use Rattle.directory.specs.Lookup.{find, find_in};
ghost use Rattle.records.specs.Readings.{record_bytes};
ghost use Rattle.records.specs.Types as Types;
ghost use Rattle.vhead.specs.Heads as Heads;
ghost use Rattle.vhead.specs.Limits.{head_tag};
ghost use Rattle.vdata.specs.Limits.{values_tag};
ghost use Rattle.vdata.specs.Kinds.{number_of};
ghost use Rattle.vdata.specs.Patterns as Patterns;
ghost use Rattle.vdata.specs.Values as Values;
ghost use Rattle.vdata.specs.Steps as Steps;

use super::format::VALUES_TAG;
use super::kind::Kind;
use answer::Refusal;
use answer::refusals::Rule;
use records::scalar;
use storage::element;
use vhead::field::Numbers;
use vhead::format::HEAD_TAG;
use vhead::head;
use vhead::head::Head;

// A value. A float is made from the element's bits; the pattern of a NaN is kept as a number.
#[derive(Clone, Copy)]
pub enum Value {
    Signed(i64),
    Unsigned(u64),
    Float32(f32),
    Float64(f64),
    Nan32(u32),
    Nan64(u64),
}

impl Value {
    // Its kind: a NaN is a float.
    pub fn kind(self) -> Kind
        ensures { number_of result ≡ Patterns.value_kind self }
    {
        match self {
            Value::Signed(_) => Kind::Signed,
            Value::Unsigned(_) => Kind::Unsigned,
            Value::Float32(_) | Value::Nan32(_) => Kind::Float32,
            Value::Float64(_) | Value::Nan64(_) => Kind::Float64,
        }
    }
}

// A number of two's complement by its pattern, with the half of what its bits can count.
#[tactic(auto, unfolding(crate::specs::Patterns::signed_by))]
fn signed(n: usize, half: usize) -> Value
    requires { (n < 2 * half) × (half ≤ 2147483648) }
    ensures { result ≡ Patterns.signed_by n (2 * half) }
{
    let z = n as i64;
    if n < half {
        return Value::Signed(z);
    }
    let whole = (2 * half) as i64;
    Value::Signed(z - whole)
}

#[tactic(auto, unfolding(crate::specs::Patterns::float32), using(crate::proofs::Patterns::is_nan, crate::proofs::Patterns::is_number))]
fn float32(n: usize) -> Value
    requires { n < 4294967296 }
    ensures { result ≡ Patterns.float32 n }
{
    let bits = n as u32;
    if 2139095040 < bits % 2147483648 {
        return Value::Nan32(bits);
    }
    Value::Float32(f32::from_bits(bits))
}

#[tactic(auto, unfolding(crate::specs::Patterns::float64), using(crate::proofs::Patterns::is_nan, crate::proofs::Patterns::is_number))]
fn float64(n: usize) -> Value
    ensures { result ≡ Patterns.float64 n }
{
    let bits = n as u64;
    if 9218868437227405312 < bits % 9223372036854775808 {
        return Value::Nan64(bits);
    }
    Value::Float64(f64::from_bits(bits))
}

// The pattern of a type's value at a place of the values: the number in its bytes, in the type's byte order.
fn pattern(code: usize, part: &[u8], at: usize) -> usize
    ensures { ReadsIn (Types.byte_order_of code) (Types.width_of code) part.now at result }
{
    wire::read_number(part, at, scalar::width(code), scalar::byte_order(code))
}

// The value of a type at a place of the values.
#[tactic(auto, unfolding(crate::specs::Patterns::value_at, crate::specs::Patterns::value_by, records::specs::Types::kind_of, records::specs::Types::width_of, records::specs::Types::row_of))]
fn value_at(code: usize, part: &[u8], at: usize) -> Value
    ensures { result ≡ Patterns.value_at code part.now at }
{
    let n = pattern(code, part, at);
    match scalar::base_type(code) {
        20 => signed(n, 128),
        22 => signed(n, 32768),
        24 => signed(n, 2147483648),
        5 => float32(n),
        6 => float64(n),
        _ => Value::Unsigned(n as u64),
    }
}

// The rules of the indices of a field and a component.
#[tactic(auto, unfolding(crate::specs::Values::field_fault, answer::specs::Search::must))]
pub(crate) fn check_field(h: Head, part: &[u8], field: usize, component: usize) -> Result<(), Rule>
    requires { h ≡ Heads.head_in part.now }
    ensures { fault_of result ≡ Values.field_fault h (Heads.field_at part.now h field) field component }
{
    if h.fields <= field {
        return Err(Rule::NoValue);
    }
    let f = head::numbers_at(part, field as u16);
    if f.order <= component {
        return Err(Rule::NoValue);
    }
    Ok(())
}

// The rules of the indices of a record, a field and a component.
#[tactic(auto, unfolding(crate::specs::Values::index_fault, answer::specs::Search::must))]
fn check_index(
    h: Head,
    part: &[u8],
    record: usize,
    field: usize,
    component: usize,
) -> Result<(), Rule>
    requires { h ≡ Heads.head_in part.now }
    ensures { fault_of result ≡ Values.index_fault h (Heads.field_at part.now h field) «record» field component }
{
    if h.records <= record {
        return Err(Rule::NoValue);
    }
    check_field(h, part, field, component)
}

// Where a component of a field in a record lies among the values.
#[tactic(auto, unfolding(crate::specs::Values::place_of))]
pub(crate) fn place(h: Head, f: Numbers, record: usize, component: usize) -> usize
    requires { Steps.Reach h f «record» component }
    ensures { result ≡ Values.place_of h f «record» component }
{
    let before = component * scalar::width(f.code);
    match h.interlace {
        0 => record * h.record_size + f.offset + before,
        _ => h.records * f.offset + record * f.size + before,
    }
}

// Reads the value after a sound head.
fn read_after(
    image: &[u8],
    blocks: usize,
    reference: u16,
    part: &[u8],
    record: usize,
    field: usize,
    component: usize,
) -> Result<Value, Refusal>
    ensures { let s = image.now in let e = part.now in let values = find_in s blocks values_tag reference in
        Values.Gives (Values.value_after s e values «record» field component)
        (Values.value_in e (record_bytes s values) «record» field component) result }
{
    let h = head::parse(part);
    check_index(h, part, record, field, component)?;
    let found = element::locate(image, blocks, VALUES_TAG, reference)?;
    let values = wire::part(image, found.offset, found.length);
    if values.len() < h.records * h.record_size {
        return Err(Rule::Record.at(found.slot));
    }
    let f = head::numbers_at(part, field as u16);
    Ok(value_at(f.code, values, place(h, f, record, component)))
}

// Reads a value of the Vdata of a reference, by the indices of its record, its field and its component, in a chain of so many blocks.
pub fn read_in(
    image: &[u8],
    blocks: usize,
    reference: u16,
    record: u64,
    field: u64,
    component: u64,
) -> Result<Value, Refusal>
    ensures { let s = image.now in
        let head = find_in s blocks head_tag reference in let values = find_in s blocks values_tag reference in
        Values.Gives (Values.value_found s head values «record» field component)
        (Values.value_in (record_bytes s head) (record_bytes s values) «record» field component) result }
{
    let found = element::locate(image, blocks, HEAD_TAG, reference)?;
    let part = wire::part(image, found.offset, found.length);
    if let Err(rule) = head::check(part) {
        return Err(rule.at(found.slot));
    }
    read_after(
        image,
        blocks,
        reference,
        part,
        record as usize,
        field as usize,
        component as usize,
    )
}

// The same in an image that is opened first.
pub fn read(
    image: &[u8],
    reference: u16,
    record: u64,
    field: u64,
    component: u64,
) -> Result<Value, Refusal>
    ensures { let s = image.now in
        let head = find s head_tag reference in let values = find s values_tag reference in
        Values.Gives (Values.value_of s reference «record» field component)
        (Values.value_in (record_bytes s head) (record_bytes s values) «record» field component) result }
{
    let opened = directory::open(image);
    let Ok(counts) = opened else {
        return Err(opened.unwrap_err());
    };
    read_in(image, counts.blocks, reference, record, field, component)
}
