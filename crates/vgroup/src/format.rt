// Numbers that the file format and the listing fix for Vgroups.
pub const GROUP_TAG: u16 = 1965;

// How many groups may be entered, one in the other, the named one included.
pub const MOST_GROUPS: usize = 16;

pub const MOST_PAIRS: usize = 4096;
