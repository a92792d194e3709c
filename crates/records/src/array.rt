// Arrays, tag 701.
#![tactic(auto, unfolding(crate::specs::Arrays::array_fault, crate::specs::Arrays::array_pack_fault, answer::specs::Search::must, wire::specs::Layouts::read, wire::specs::Layouts::extent))]

ghost use Rattle.std.specs.Prelude.{◌≡◌, length};
ghost use Rattle.records.specs.Limits as Limits;
ghost use Rattle.answer.specs.Refusals.{fault_of};
ghost use Rattle.wire.specs.Layouts as Layout;
ghost use Rattle.records.specs.Readings.{record_bytes};
ghost use Rattle.directory.specs.Lookup.{find, find_in};
ghost use Rattle.records.specs.Packings.{packed_numbers, Packs};
ghost use Rattle.records.specs.Arrays as Arrays;

use super::format::{ARRAY_TAG, MOST_COUNT};
use super::runs::{lay, take};
use answer::Refusal;
use answer::refusals::Rule;
use storage::element;

// The rank, and where the sizes and the pairs stand in the record.
#[derive(Clone, Copy, PartialEq, Eq)]
pub struct Array {
    pub rank: usize,
    pub sizes: usize,
    pub pairs: usize,
}

fn parse(part: &[u8]) -> Array
    ensures { result ≡ Layout.read Arrays.array part.now 0 }
{
    let rank = wire::read16(part, 0);
    Array {
        rank,
        sizes: 2,
        pairs: 2 + 4 * rank,
    }
}

// The rules of an array's bytes.
fn check(part: &[u8]) -> Result<(), Rule>
    ensures { fault_of result ≡ Arrays.array_fault part.now }
{
    let rank = wire::read16(part, 0);
    if part.len() != 6 + 8 * rank {
        return Err(Rule::Record);
    }
    if rank == 0 {
        return Err(Rule::Record);
    }
    Ok(())
}

// Reads the array of a reference, in a chain of so many blocks: its rank, the sizes to a lent list, and tag and reference of each pair to
// another.
pub fn read_in(
    image: &[u8],
    blocks: usize,
    reference: u16,
    sizes: &mut [u32],
    pairs: &mut [u16],
) -> Result<usize, Refusal>
    ensures { let s = image.now in let found = find_in s blocks Limits.array_tag reference in
        Arrays.ReadsArray (Arrays.array_at s found (length sizes.old) (length pairs.old)) (record_bytes s found)
        sizes.old sizes.new pairs.old pairs.new (Arrays.array_numbers result) }
{
    let found = element::locate(image, blocks, ARRAY_TAG, reference)?;
    let part = wire::part(image, found.offset, found.length);
    if let Err(rule) = check(part) {
        return Err(rule.at(found.slot));
    }
    let array = parse(part);
    if sizes.len() < array.rank {
        return Err(Rule::Small.at(0));
    }
    let entries = 2 * (array.rank + 1);
    if pairs.len() < entries {
        return Err(Rule::Small.at(0));
    }
    take(part, array.sizes, array.rank, sizes);
    take(part, array.pairs, entries, pairs);
    Ok(array.rank)
}

// The same in an image that is opened first.
pub fn read(
    image: &[u8],
    reference: u16,
    sizes: &mut [u32],
    pairs: &mut [u16],
) -> Result<usize, Refusal>
    ensures { let s = image.now in
        Arrays.ReadsArray (Arrays.array_of s reference (length sizes.old) (length pairs.old))
        (record_bytes s (find s Limits.array_tag reference))
        sizes.old sizes.new pairs.old pairs.new (Arrays.array_numbers result) }
{
    let opened = directory::open(image);
    let Ok(counts) = opened else {
        return Err(opened.unwrap_err());
    };
    read_in(image, counts.blocks, reference, sizes, pairs)
}

// The rules of so many sizes and entries of pairs.
fn check_pack(sizes: usize, pairs: usize) -> Result<(), Rule>
    ensures { fault_of result ≡ Arrays.array_pack_fault sizes pairs }
{
    if sizes == 0 {
        return Err(Rule::Record);
    }
    if MOST_COUNT < sizes {
        return Err(Rule::Record);
    }
    if pairs != 2 * (sizes + 1) {
        return Err(Rule::Record);
    }
    Ok(())
}

// Packs an array into the front of a lent buffer.
pub fn pack(sizes: &[u32], pairs: &[u16], out: &mut [u8]) -> Result<usize, Refusal>
    ensures { Packs (Arrays.array_pack_fault (length sizes.now) (length pairs.now))
        (Arrays.array_bytes sizes.now pairs.now) out.old out.new (packed_numbers result) }
{
    check_pack(sizes.len(), pairs.len())?;
    let rank = sizes.len();
    let length = 6 + 8 * rank;
    if out.len() < length {
        return Err(Rule::Small.at(0));
    }
    wire::write16(out, 0, rank);
    lay(out, 2, sizes);
    lay(out, 2 + 4 * rank, pairs);
    Ok(length)
}
