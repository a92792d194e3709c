// The fields that a Vgroup and a Vdata head end in.
#![tactic(auto, unfolding(crate::specs::Tails::tail_pack_fault, answer::specs::Search::must))]

ghost use Rattle.std.specs.Prelude.{◌≡◌, ◌≤◌, ◌<◌, length};
ghost use Rattle.answer.specs.Refusals.{fault_of};
ghost use Rattle.wire.specs.Numbers.{put};
ghost use Rattle.wire.specs.Layouts as Layout;
ghost use Rattle.vset.specs.Tails as Tails;
ghost use Rattle.vset.specs.Steps as Steps;

use super::format::VERSION;
use answer::refusals::Rule;
use records::format::MOST_COUNT;

// Where name and class stand in the record and how long they are, the last numbers, and where the record ends.
#[derive(Clone, Copy, PartialEq, Eq)]
pub struct Tail {
    pub name: usize,
    pub name_length: usize,
    pub class: usize,
    pub class_length: usize,
    pub extension_tag: usize,
    pub extension_ref: usize,
    pub version: usize,
    pub more: usize,
    pub end: usize,
}

// The numbers after name and class.
#[derive(Clone, Copy, PartialEq, Eq)]
pub struct Ending {
    pub extension_tag: u16,
    pub extension_ref: u16,
    pub version: u16,
    pub more: u16,
}

// Where so many names, from a place of a record on, end: each has its length before it.
pub fn skip_names(part: &[u8], at: u32, count: u16) -> usize
    ensures { (result ≡ Tails.names_end part.now count at) × (result ≤ 8589934592) }
{
    let mut end = at as usize;
    for _ in 0..count {
        end += 2 + wire::read16(part, end);
    }
    end
}

// Reads the tail that stands after so many names, which start at a place of a record.
pub fn parse(part: &[u8], names: u32, count: u16) -> Tail
    ensures { result ≡ Layout.read (Tails.tail (λ t. t)) part.now (Tails.names_end part.now count names) }
{
    let at = skip_names(part, names, count);
    let name_length = wire::read16(part, at);
    let name = at + 2;
    let class_length = wire::read16(part, name + name_length);
    let class = name + name_length + 2;
    let last = class + class_length;
    Tail {
        name,
        name_length,
        class,
        class_length,
        extension_tag: wire::read16(part, last),
        extension_ref: wire::read16(part, last + 2),
        version: wire::read16(part, last + 4),
        more: wire::read16(part, last + 6),
        end: last + 8,
    }
}

// The rules of a name and a class of so many bytes and a version.
pub fn check_pack(name: usize, class: usize, version: usize) -> Result<(), Rule>
    ensures { fault_of result ≡ Tails.tail_pack_fault name class version 0 }
{
    if MOST_COUNT < name {
        return Err(Rule::Record);
    }
    if MOST_COUNT < class {
        return Err(Rule::Record);
    }
    if version != VERSION {
        return Err(Rule::Record);
    }
    Ok(())
}

// Lays a text with its length before it, from a place of a buffer on.
fn lay_text(out: &mut [u8], at: usize, text: &[u8])
    requires { at < length out.old }
    ensures { out.new ≡ put out.old at (Steps.text_bytes text.now) }
{
    wire::write16(out, at, text.len());
    wire::write_bytes(out, at + 2, text);
}

// Lays the numbers after name and class, from a place of a buffer on.
fn lay_ending(out: &mut [u8], at: usize, x: Ending)
    requires { at < length out.old }
    ensures { out.new ≡ put out.old at (Steps.ending_bytes x) }
{
    wire::write16(out, at, x.extension_tag as usize);
    wire::write16(out, at + 2, x.extension_ref as usize);
    wire::write16(out, at + 4, x.version as usize);
    wire::write16(out, at + 6, x.more as usize);
}

// Lays a tail from a place of a buffer on. What would fall past its end is dropped.
pub fn lay(out: &mut [u8], at: usize, name: &[u8], class: &[u8], x: Ending)
    ensures { out.new ≡ put out.old at
        (Layout.pack (Tails.tail (λ t. t)) (Tails.tail_numbers name.now class.now x) at) }
{
    if out.len() <= at {
        return;
    }
    lay_text(out, at, name);
    let second = at + 2 + name.len();
    if out.len() <= second {
        return;
    }
    lay_text(out, second, class);
    let last = second + 2 + class.len();
    if out.len() <= last {
        return;
    }
    lay_ending(out, last, x);
}
