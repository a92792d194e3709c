// The version that the file format fixes for Vgroups and heads of Vdatas.
pub const VERSION: usize = 3;
