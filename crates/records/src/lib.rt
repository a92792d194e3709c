// Records in plain storage: number types, dimensions and arrays, each read from its element's part of the image and packed; and the types of
// numbers that fields and arrays have.
#![tactic(auto)]

pub mod array;
pub mod dimension;
pub mod format;
pub mod number_type;
pub mod runs;
pub mod scalar;
