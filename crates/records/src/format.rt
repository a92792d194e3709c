// Numbers that the file format fixes for records.
pub const NUMBER_TYPE_TAG: u16 = 106;

pub const ARRAY_TAG: u16 = 701;

// Added to the code of a type whose values stand low byte first.
pub const LITTLE_ENDIAN_TYPES: usize = 16384;

pub const MOST_INTERLACE: usize = 2;

// The greatest number of 16 bits.
pub const MOST_COUNT: usize = 65535;
