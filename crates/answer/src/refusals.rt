// The rules by which calls are refused, with their numbers. Above each stands what it says and, behind `Says`, what a person is told.
ghost use Rattle.std.specs.Prelude.{◌≡◌};
ghost use Rattle.answer.specs.Refusals.{number_of};

#[derive(Clone, Copy, PartialEq, Eq)]
pub enum Rule {
    // The image is longer than its buffer or than `MOST_BYTES`, or an edit would make it so.
    // Says: the file is too long.
    TooLong = 1,

    // The image is shorter than 4 bytes, or has other first bytes.
    // Says: this is no HDF4 file.
    NotHdf = 2,

    // A block is not wholly inside the image.
    // Says: a block of descriptors is not wholly inside the file.
    DirCut = 3,

    // The next block is one already walked.
    // Says: the chain of blocks comes back to one already walked.
    DirLoop = 4,

    // A block shares a byte with the header or an earlier block.
    // Says: a block of descriptors overlaps the header or an earlier block.
    DirOver = 5,

    // There is a 257th block or a 4,097th slot.
    // Says: there are more than 256 blocks or 4,096 slots.
    DirBig = 6,

    // A tag is one that no live slot may have, or that no edit takes.
    // Says: a tag is not allowed.
    BadTag = 7,

    // An element ends past the image.
    // Says: an element ends past the end of the file.
    Outside = 8,

    // An element touches the header or a block.
    // Says: an element touches the header or a block of descriptors.
    OnDirectory = 9,

    // Two live slots have the same base tag and reference.
    // Says: two elements have the same tag and reference.
    Twice = 10,

    // No live slot has that base tag and reference.
    // Says: there is no element with that tag and reference.
    Absent = 11,

    // The element is extended, and not of a kind that the call reads.
    // Says: the element is stored in a way that is not read here.
    Storage = 12,

    // The record of the element's linked blocks breaks its layout.
    Chain = 13,

    // The lent output is too short.
    // Says: the output is too short.
    Small = 14,

    // A record breaks its layout.
    Record = 15,

    // A number type is not known, also less 16384.
    // Says: a number type is not known.
    Type = 16,

    // The Vdata has no such record, field or component.
    // Says: there is no such record, field or component.
    NoValue = 17,

    // An element with that base tag and reference is there already.
    // Says: there is already an element with that tag and reference.
    Present = 18,

    // The buffer is shorter than the new image.
    // Says: the buffer has no room for the edit.
    NoRoom = 19,

    // The image carries no trailer, so there is nothing to undo.
    // Says: there is no edit to undo.
    NoEdit = 20,

    // The trailer breaks a rule; the place is the trailer's.
    // Says: the trailer of the last edit is damaged.
    BadTrailer = 21,

    // Groups are nested past 16; the place is the slot of the 16th.
    // Says: groups are nested more than 16 deep.
    Deep = 22,

    // A table of the element's linked blocks is absent, not stored or extended, or its reference is 0; the index is the table's.
    // Says: a table of the element's linked blocks is not there.
    NoTable = 23,

    // A table of the element's linked blocks has too few bytes for its entries; the index is the table's.
    // Says: a table of the element's linked blocks is too short.
    ShortTable = 24,

    // A linked block is absent, not stored or extended, or its reference is 0 by a record of 22 bytes; the index is the block's, through the whole element.
    // Says: a linked block of the element is not there.
    NoBlock = 25,

    // A linked block has fewer bytes than are taken from it; the index is the block's, through the whole element.
    // Says: a linked block of the element is too short.
    ShortBlock = 26,

    // A table of the element's linked blocks is one already walked, or a 257th; the index is the table's.
    // Says: the tables of the element's linked blocks repeat or run past 256.
    TableLoop = 27,

    // The element is named and not stored yet: offset and length of its slot are 4294967295.
    // Says: the element is named in the directory and not stored yet.
    NotStored = 29,

    // The trailer of the newest edit is another desk's; the place is the trailer's.
    // Says: the newest edit is another desk's.
    OtherDesk = 30,
}

impl Rule {
    // Its number, which is not 0.
    pub fn number(self) -> usize
        ensures { result ≡ number_of self }
    {
        self as usize
    }
}
