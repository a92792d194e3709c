// An element in linked blocks: the tables that its record leads to, and the blocks that they name. Tables and blocks are looked up in the
// image's data descriptor blocks. Each lookup starts at the slot where the one before it ended.
#![tactic(auto, unfolding(crate::specs::Walks::share))]

ghost use Rattle.std.specs.Prelude.{◌≡◌, ◌+◌, ◌*◌, ◌-◌, ◌%◌, eqb};
ghost use Rattle.answer.specs.Refusals.{number_of};
ghost use Rattle.answer.specs.Search.{any};
ghost use Rattle.wire.specs.Numbers.{be};
ghost use Rattle.directory.specs.Steps.Opens.{Opens};
ghost use Rattle.storage.specs.Descriptions.{first_length};
ghost use Rattle.storage.specs.Tables.{linked_bytes, link_fault, tables_after, never_written};
ghost use Rattle.storage.specs.Walks.{share, blocks_from, chain_of};
ghost use Rattle.storage.specs.Steps.{Sought, InRange, Describes, LookedUp, next_fault, Marked, Gave, Reached, Took, Followed};

use super::description::Description;
use super::element;
use super::format::{LINKED_TAG, MOST_TABLES, SPARSE_RECORD_BYTES};
use answer::refusals::Rule;
use directory::cursor::Cursor;
use directory::resume;
use std::marker::Model;

// How many marks the tables of a chain share. A prime, so that references that ascend by the same step have marks of their own.
const MARKS: usize = 251;

// The first fault of a walk, and the index of the table or block that has it.
#[derive(Clone, Copy, PartialEq, Eq)]
pub(crate) struct Broken {
    pub rule: Rule,
    pub index: usize,
}

// An image that opens, how many data descriptor blocks it has, and where the last lookup ended.
#[derive(Drop)]
pub(crate) struct Lookups<'a> {
    image: &'a [u8],
    blocks: usize,
    at: Cursor,
}

// A contract sees the image alone: what is found does not hang on where a lookup starts.
impl<'a> Model for Lookups<'a> {
    ghost use Rattle.std.specs.Prelude.{List, ℕ};
    ghost use Rattle.directory.specs.Steps.Opens.{Opens};
    ghost use Rattle.directory.specs.Steps.Resuming.{OnChain};

    ghost Value = { List ℕ };

    ghost view = { λ l. l.image.now };

    ghost invariant = { λ l. Opens l.image.now l.blocks × OnChain l.image.now l.blocks l.at };
}

// How many bytes the block of an index gives where so many are left.
fn share_of(d: Description, index: usize, left: usize) -> usize
    ensures { result ≡ share d index left }
{
    if index == 0 {
        return d.first.min(left);
    }
    d.block.min(left)
}

// The mark of the table with a reference; tables may share one.
fn mark_of(reference: u16) -> usize
    ensures { result ≡ reference % 251 }
{
    reference as usize % MARKS
}

// Whether the block with a reference was never written.
fn never_written(sparse: bool, reference: u16) -> bool
    ensures { result ≡ never_written sparse reference }
{
    sparse && reference == 0
}

impl<'a> Lookups<'a> {
    // The first one starts past the last slot, and goes round.
    pub(crate) fn start(image: &'a [u8], blocks: usize) -> Self
        requires { Opens image.now blocks }
        ensures { result ≡ image.now }
    {
        let at = Cursor {
            place: 0,
            left: 0,
            next: 0,
            blocks: 0,
        };
        Lookups { image, blocks, at }
    }

    // The slot of the table or block with a reference.
    fn find(&mut self, reference: u16) -> Option<usize>
        ensures { Sought self.old reference result × (self.new ≡ self.old) }
    {
        let found = resume::find_from(self.image, self.blocks, self.at, LINKED_TAG, reference);
        self.at = found;
        if found.left == 0 {
            return None;
        }
        Some(found.place)
    }

    // The bytes of the table or block with a reference, of which so many are needed, or one rule where it is not there and another where it is
    // too short. A reference of 0 names none.
    fn reach(
        &mut self,
        reference: u16,
        needed: usize,
        absent: Rule,
        short: Rule,
    ) -> Result<&'a [u8], Rule>
        ensures { let s = self.old in
            LookedUp s reference (link_fault s reference needed (number_of absent) (number_of short)) needed result × (self.new ≡ s) }
    {
        if reference == 0 {
            return Err(absent);
        }
        let Some(p) = self.find(reference) else {
            return Err(absent);
        };
        if !element::is_plain(self.image, p) {
            return Err(absent);
        }
        let bytes = element::content(self.image, p);
        if bytes.len() < needed {
            return Err(short);
        }
        Ok(bytes)
    }

    // The reference at a place of the table with a reference, 0 where that table is not there: its fault is not asked, and it has no bytes.
    fn reference_in(&mut self, table: u16, place: usize) -> u16
        ensures { (result ≡ be 2 (linked_bytes self.old table) place) × (self.new ≡ self.old) }
    {
        self.reach(table, 0, Rule::NoTable, Rule::ShortTable)
            .map_or(0, |bytes| wire::read16(bytes, place) as u16)
    }

    // How many bytes block 0 has where the record does not say: those of its own element, or, where it was never written, as many as every
    // other.
    fn first_length(&mut self, table: u16, block: usize) -> usize
        ensures { (result ≡ first_length self.old table block) × (self.new ≡ self.old) }
    {
        let reference = self.reference_in(table, 2);
        if reference == 0 {
            return block;
        }
        self.reach(reference, 0, Rule::NoBlock, Rule::ShortBlock)
            .map_or(0, |first| first.len())
    }

    // What a record of either layout is read into.
    pub(crate) fn describe(&mut self, bytes: &[u8]) -> Description
        ensures { Describes self.old bytes.now result × (self.new ≡ self.old) }
    {
        if bytes.len() == SPARSE_RECORD_BYTES {
            let block = wire::read32(bytes, 6);
            let table = wire::read16(bytes, 14) as u16;
            return Description {
                length: wire::read32(bytes, 2),
                first: self.first_length(table, block),
                block,
                entries: wire::read32(bytes, 10),
                table,
                sparse: true,
            };
        }
        Description {
            length: wire::read32(bytes, 4),
            first: wire::read32(bytes, 8),
            block: wire::read32(bytes, 12),
            entries: wire::read32(bytes, 16),
            table: wire::read16(bytes, 20) as u16,
            sparse: false,
        }
    }

    // Whether one of so many tables, from the first one on, has a reference. Each is looked up again.
    fn among(&mut self, first: u16, count: usize, reference: u16) -> bool
        ensures { (result ≡ any (eqb reference) (tables_after self.old count first)) × (self.new ≡ self.old) }
    {
        let mut table = first;
        for _passed in 0..count {
            if reference == table {
                return true;
            }
            table = self.reference_in(table, 0);
        }
        false
    }

    // The same. Each of the tables has set its mark, so that they are searched only where the mark of the reference is set.
    fn seen(&mut self, first: u16, marks: &[u64; 4], count: usize, reference: u16) -> bool
        requires { Marked self.old first count marks.now }
        ensures { (result ≡ any (eqb reference) (tables_after self.old count first)) × (self.new ≡ self.old) }
    {
        marks::is_set(marks, mark_of(reference)) && self.among(first, count, reference)
    }

    // The table with a reference, after so many others.
    fn reach_table(
        &mut self,
        d: Description,
        marks: &[u64; 4],
        count: usize,
        reference: u16,
    ) -> Result<&'a [u8], Rule>
        requires { InRange d × Marked self.old d.table count marks.now }
        ensures { LookedUp self.old reference (next_fault self.old d count reference) (2 + 2 * d.entries) result × (self.new ≡ self.old) }
    {
        if count == MOST_TABLES || self.seen(d.table, marks, count, reference) {
            return Err(Rule::TableLoop);
        }
        let needed = 2 + 2 * d.entries;
        self.reach(reference, needed, Rule::NoTable, Rule::ShortTable)
    }

    // Copies what the block with a reference gives to a place of a buffer, of which so many bytes are taken, unless it breaks a rule.
    fn take_block(
        &mut self,
        sparse: bool,
        reference: u16,
        count: usize,
        out: &mut [u8],
        place: usize,
    ) -> Result<(), Rule>
        ensures { Gave self.old sparse reference count place out.old out.new result × (self.new ≡ self.old) }
    {
        if never_written(sparse, reference) {
            wire::write_zeros(out, place, count);
            return Ok(());
        }
        let block = self.reach(reference, count, Rule::NoBlock, Rule::ShortBlock)?;
        wire::write_bytes(out, place, &block[..count]);
        Ok(())
    }

    // Copies what the blocks of one table give, of which the first has an index, where so many bytes are missing, up to the first fault. Answers
    // how many bytes are left.
    fn take_blocks(
        &mut self,
        d: Description,
        table: &[u8],
        first: usize,
        missing: usize,
        out: &mut [u8],
    ) -> Result<usize, Broken>
        requires { InRange d × Reached d first missing }
        ensures { Took (blocks_from self.old d table.now d.entries 0 first missing) (d.length - missing) out.old out.new result
            × (self.new ≡ self.old) }
    {
        let mut left = missing;
        for entry in 0..d.entries {
            if left == 0 {
                return Ok(left);
            }
            let index = first + entry;
            let share = share_of(d, index, left);
            let reference = wire::read16(table, 2 + 2 * entry) as u16;
            let place = d.length - left;
            self.take_block(d.sparse, reference, share, out, place)
                .map_err(|rule| Broken { rule, index })?;
            left -= share;
        }
        Ok(left)
    }

    // Copies what the blocks of all tables give to the front of a buffer, as far as it reaches, up to the first fault.
    pub(crate) fn follow(&mut self, d: Description, out: &mut [u8]) -> Result<(), Broken>
        requires { InRange d }
        ensures { Followed (chain_of self.old d) out.old out.new result × (self.new ≡ self.old) }
    {
        let mut marks = [0u64; 4];
        let mut count = 0;
        let mut reference = d.table;
        let mut index = 0;
        let mut left = d.length;
        while 0 < left {
            let table = self
                .reach_table(d, &marks, count, reference)
                .map_err(|rule| Broken { rule, index: count })?;
            left = self.take_blocks(d, table, index, left, out)?;
            marks::set(&mut marks, mark_of(reference));
            count += 1;
            reference = wire::read16(table, 0) as u16;
            index += d.entries;
        }
        Ok(())
    }
}
