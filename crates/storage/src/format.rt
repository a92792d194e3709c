// Numbers that the file format fixes for the storage of elements.

// The extended form of the tag whose element is empty.
pub const EXTENDED_LONE: usize = 16491;

// The tag of the tables and the blocks of an element in linked blocks.
pub const LINKED_TAG: u16 = 20;

// The kind of an extended element in linked blocks, and how many bytes a kind takes where it is not the sparse record's.
pub const LINKED_KIND: usize = 1;

pub const KIND_BYTES: usize = 4;

// How many bytes a record of this kind takes: the sparse one, which the library writes, whose blocks may never have been written, and the full
// one, which has the length of the first block.
pub const SPARSE_RECORD_BYTES: usize = 16;

pub const FULL_RECORD_BYTES: usize = 22;

pub const MOST_TABLES: usize = 256;
