// Numbers for callers: limits, the mark of a byte order, and the kinds of values.

// The most bytes that an image has.
pub const MOST_BYTES: usize = 2147483647;

// The most elements that an image has.
pub const MOST_ELEMENTS: usize = 4096;

// The most bytes by which an edit makes an image longer, besides its data: a block of descriptors and a trailer.
pub const EDIT_ROOM: usize = 234;

// The most fields that a Vdata has.
pub const MOST_FIELDS: usize = 256;

// The most pairs that the listing of a group has.
pub const MOST_PAIRS: usize = 4096;

// Added to the code of a field's type where numbers stand low byte first.
pub const LITTLE_ENDIAN: usize = 16384;

// C: enum hdf4_kind, the kinds of values. A signed number.
pub const SIGNED: u64 = 1;

// C: enum hdf4_kind. An unsigned number, or a character.
pub const UNSIGNED: u64 = 2;

// C: enum hdf4_kind. A float of 32 bits.
pub const FLOAT32: u64 = 3;

// C: enum hdf4_kind. A float of 64 bits.
pub const FLOAT64: u64 = 4;
