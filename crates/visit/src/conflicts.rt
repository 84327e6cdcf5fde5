// The conflict test: blocks that may not share a cloud stand on different ones.
ghost use Rattle.std.specs.Prelude.{◌≡◌, ◌<◌};
ghost use Rattle.packing.specs.Packing.{digits};
ghost use Rattle.visit.specs.Tables.{conflict_count, clashes};
ghost use Rattle.visit.specs.Lent.{table_in, apart_in};

use crate::tables::{CONFLICTS, MOST_BLOCKS, Tables};
use packing::cloud_in;

// The two blocks of conflict i stand on one cloud. Its byte is the first block times 16 plus the second.
fn clashes(tables: &Tables<'_>, place: u64, i: usize) -> bool
    requires i_bound { i < conflict_count (table_in tables.now) }
    ensures { result ≡ clashes (table_in tables.now) (digits tables.now.blocks place) i }
{
    let both = usize::from(tables.bytes[CONFLICTS + 1 + i]);
    cloud_in(place, tables.blocks, both / MOST_BLOCKS)
        == cloud_in(place, tables.blocks, both % MOST_BLOCKS)
}

// No two blocks that may not share a cloud do. Most descriptions have none.
pub fn is_apart(tables: &Tables<'_>, place: u64) -> bool
    ensures { result ≡ apart_in tables.now place }
{
    let conflicts = usize::from(tables.bytes[CONFLICTS]);
    for i in 0..conflicts {
        if clashes(tables, place, i) {
            return false;
        }
    }
    true
}
