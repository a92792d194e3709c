// The tag that the file format fixes for the values of a Vdata.
pub const VALUES_TAG: u16 = 1963;
