// The record of an element in linked blocks, in one of two layouts that its length tells apart: the sparse one and the full one.
#![tactic(auto, unfolding(crate::specs::Descriptions::sparse_fault, crate::specs::Descriptions::full_fault, crate::specs::Descriptions::other_fault, crate::specs::Descriptions::record_fault, crate::specs::Descriptions::record_length, answer::specs::Search::must))]

ghost use Rattle.std.specs.Prelude.{◌≡◌};
ghost use Rattle.answer.specs.Refusals.{fault_of};
ghost use Rattle.storage.specs.Descriptions.{sparse_fault, full_fault, other_fault, record_fault, record_length};

use super::format::{FULL_RECORD_BYTES, KIND_BYTES, LINKED_KIND, SPARSE_RECORD_BYTES};
use answer::refusals::Rule;

// What both layouts are read into: how many bytes the element has, its first block and each later one, how many blocks a table has, the
// reference of the first table, and whether blocks may never have been written.
#[derive(Clone, Copy)]
pub struct Description {
    pub length: usize,
    pub first: usize,
    pub block: usize,
    pub entries: usize,
    pub table: u16,
    pub sparse: bool,
}

// The rules of a sparse record.
fn check_sparse(bytes: &[u8]) -> Result<(), Rule>
    ensures { fault_of result ≡ sparse_fault bytes.now }
{
    if wire::read16(bytes, 0) != LINKED_KIND {
        return Err(Rule::Storage);
    }
    if wire::read32(bytes, 6) == 0 || wire::read32(bytes, 10) == 0 {
        return Err(Rule::Chain);
    }
    Ok(())
}

// Those of a full one.
fn check_full(bytes: &[u8]) -> Result<(), Rule>
    ensures { fault_of result ≡ full_fault bytes.now }
{
    if wire::read32(bytes, 0) != LINKED_KIND {
        return Err(Rule::Storage);
    }
    if wire::read32(bytes, 8) == 0 || wire::read32(bytes, 12) == 0 || wire::read32(bytes, 16) == 0 {
        return Err(Rule::Chain);
    }
    Ok(())
}

// Bytes that have the length of neither are refused: of another kind, or a record of linked blocks that is not whole.
fn check_other(bytes: &[u8]) -> Result<(), Rule>
    ensures { fault_of result ≡ other_fault bytes.now }
{
    if bytes.len() < KIND_BYTES
        || wire::read16(bytes, 0) == LINKED_KIND
        || wire::read32(bytes, 0) == LINKED_KIND
    {
        return Err(Rule::Chain);
    }
    Err(Rule::Storage)
}

// The rules of the bytes of an extended element as a record.
pub(crate) fn check(bytes: &[u8]) -> Result<(), Rule>
    ensures { fault_of result ≡ record_fault bytes.now }
{
    match bytes.len() {
        SPARSE_RECORD_BYTES => check_sparse(bytes),
        FULL_RECORD_BYTES => check_full(bytes),
        _ => check_other(bytes),
    }
}

// How many bytes the element has, by its record.
pub(crate) fn record_length(bytes: &[u8]) -> usize
    ensures { result ≡ record_length bytes.now }
{
    if bytes.len() == SPARSE_RECORD_BYTES {
        return wire::read32(bytes, 2);
    }
    wire::read32(bytes, 4)
}
