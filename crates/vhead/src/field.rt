// The four numbers of a Vdata field.
#[derive(Clone, Copy, PartialEq, Eq)]
pub struct Numbers {
    pub code: usize,
    pub size: usize,
    pub offset: usize,
    pub order: usize,
}
