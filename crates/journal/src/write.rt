// Bytes that edits write into the directory.
ghost use Rattle.std.specs.Prelude.{◌≡◌, ◌≤◌};
ghost use Rattle.wire.specs.Numbers.{put};
ghost use Rattle.directory.specs.Limits.{most_bytes};
ghost use Rattle.journal.specs.Edits.{slot_bytes, free_slots, new_block, data_offset};

use super::change::SLOT;
use directory::format::FREE;

// A new block has 16 slots.
pub const BLOCK_SLOTS: usize = 16;

pub const BLOCK_SIZE: usize = 198;

// Empty data has offset 0.
pub(crate) fn offset_of(content: &[u8], at: usize) -> usize
    ensures { result ≡ data_offset content.now at }
{
    if content.is_empty() { 0 } else { at }
}

pub(crate) fn write_slot(
    buffer: &mut [u8],
    at: usize,
    tag: usize,
    reference: usize,
    offset: usize,
    size: usize,
)
    requires { at ≤ 8589934592 }
    ensures { buffer.new ≡ put buffer.old at (slot_bytes tag reference offset size) }
{
    wire::write16(buffer, at, tag);
    wire::write16(buffer, at + 2, reference);
    wire::write32(buffer, at + 4, offset);
    wire::write32(buffer, at + 8, size);
}

fn write_free_slots(buffer: &mut [u8], at: usize, count: usize)
    requires { (at ≤ 4294967280) × (count ≤ 16) }
    ensures { buffer.new ≡ put buffer.old at (free_slots count) }
{
    for i in 0..count {
        write_slot(buffer, at + SLOT * i, FREE, 0, 0, 0);
    }
}

// A block whose first slot is given, the others free, that ends the chain.
pub(crate) fn write_block(
    buffer: &mut [u8],
    at: usize,
    tag: usize,
    reference: usize,
    offset: usize,
    size: usize,
)
    requires { at ≤ most_bytes }
    ensures { buffer.new ≡ put buffer.old at (new_block (slot_bytes tag reference offset size)) }
{
    wire::write16(buffer, at, BLOCK_SLOTS);
    wire::write32(buffer, at + 2, 0);
    write_slot(buffer, at + 6, tag, reference, offset, size);
    write_free_slots(buffer, at + 18, 15);
}
