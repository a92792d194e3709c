// Columns of numbers of 16 bits.
ghost use Rattle.std.specs.Prelude.{◌≡◌, ◌<◌, get_or};
ghost use Rattle.wire.specs.Numbers.{put};
ghost use Rattle.wire.specs.Layouts.{bytes_each};
ghost use Rattle.vset.specs.Columns.{every};

// The entry of an index, 0 past the end of the table.
fn entry(table: &[u16], i: usize) -> usize
    ensures { result ≡ get_or table.now i 0 }
{
    table.get(i).map_or(0, |&x| x as usize)
}

// Lays a column of a table, so many numbers of 16 bits from an entry on and so many entries apart, from a place of a buffer on. What
// would fall past its end is dropped.
pub fn lay_column(out: &mut [u8], at: u32, table: &[u16], first: u16, step: u16, count: u16)
    ensures { out.new ≡ put out.old at (bytes_each 2 (every first step count table.now)) }
{
    for i in 0..count as usize {
        let number = entry(table, first as usize + step as usize * i);
        wire::write16(out, at as usize + 2 * i, number);
    }
}
