// The types of numbers in Vdatas and arrays, by their codes.
#![tactic(auto, unfolding(crate::specs::Types::base_type, crate::specs::Types::byte_order_of, crate::specs::Types::width_of))]

ghost use Rattle.std.specs.Prelude.{◌≡◌, ◌≤◌};
ghost use Rattle.records.specs.Types as Types;

use super::format::LITTLE_ENDIAN_TYPES;
use wire::ByteOrder;

// A type's own code, without what is added to it where its values stand low byte first. That is taken off once.
pub fn base_type(code: usize) -> usize
    ensures { result ≡ Types.base_type code }
{
    if LITTLE_ENDIAN_TYPES <= code {
        return code - LITTLE_ENDIAN_TYPES;
    }
    code
}

// The byte order of a type's values.
pub fn byte_order(code: usize) -> ByteOrder
    ensures { result ≡ Types.byte_order_of code }
{
    if code < LITTLE_ENDIAN_TYPES {
        return ByteOrder::BigEndian;
    }
    ByteOrder::LittleEndian
}

// The types that are known.
#[derive(Clone, Copy, PartialEq, Eq)]
pub enum Scalar {
    UChar,
    Char,
    Int8,
    UInt8,
    Int16,
    UInt16,
    Int32,
    UInt32,
    Float32,
    Float64,
}

#[tactic(auto, using(crate::proofs::Types::row_unknown), unfolding(crate::specs::Types::row_of))]
impl Scalar {
    // The type of a code, if it is known.
    pub fn of(code: usize) -> Option<Scalar>
        ensures { Types.row_found (Types.base_type code) result ≡ Types.row_of (Types.base_type code) Types.types }
    {
        match base_type(code) {
            3 => Some(Scalar::UChar),
            4 => Some(Scalar::Char),
            5 => Some(Scalar::Float32),
            6 => Some(Scalar::Float64),
            20 => Some(Scalar::Int8),
            21 => Some(Scalar::UInt8),
            22 => Some(Scalar::Int16),
            23 => Some(Scalar::UInt16),
            24 => Some(Scalar::Int32),
            25 => Some(Scalar::UInt32),
            _ => None,
        }
    }

    // How many bytes a value has.
    pub fn width(self) -> usize
        ensures { (result ≡ (Types.row_of_type self).width) × (1 ≤ result) × (result ≤ 8) }
    {
        match self {
            Scalar::UChar | Scalar::Char | Scalar::Int8 | Scalar::UInt8 => 1,
            Scalar::Int16 | Scalar::UInt16 => 2,
            Scalar::Int32 | Scalar::UInt32 | Scalar::Float32 => 4,
            Scalar::Float64 => 8,
        }
    }

    pub fn is_signed(self) -> bool
        ensures { result ≡ Types.is_signed (Types.row_of_type self).kind }
    {
        matches!(self, Scalar::Int8 | Scalar::Int16 | Scalar::Int32)
    }
}

// How many bytes a value of a type has, 0 where the type is unknown.
pub fn width(code: usize) -> usize
    ensures { (result ≡ Types.width_of code) × (result ≤ 8) }
{
    Scalar::of(code).map_or(0, |scalar| scalar.width())
}
