// Numbers that the file format fixes for heads of Vdatas.
pub const HEAD_TAG: u16 = 1962;

pub const MOST_HEAD_INTERLACE: usize = 1;

pub const MOST_FIELDS: usize = 256;
