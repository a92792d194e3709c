// The bytes of an element: the one way to it, how many it has, a view of its bytes in the image, a copy of them from plain or linked
// storage, and the choice between two images.
#![tactic(auto)]

pub mod choose;
pub mod copy;
mod description;
pub mod element;
pub mod format;
mod linked;
pub mod size;
pub mod view;
