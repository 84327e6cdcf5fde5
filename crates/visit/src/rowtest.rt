// The row test: no datum between one writer and one reader, on the cloud of one of the two, would do better on the cloud of the other.
ghost use Rattle.std.specs.Prelude.{◌≡◌, ◌*◌, ◌+◌, ◌<◌};
ghost use Rattle.packing.specs.Packing.{digits};
ghost use Rattle.sequences.specs.Bits.{bit};
ghost use Rattle.visit.specs.Tables.{exchange, better_on, moves_to};
ghost use Rattle.visit.specs.Lent.{table_in, stands_in};

use crate::tables::{EXCHANGES, MOST_BLOCKS, PAIRS, Tables};
use packing::cloud_in;

// Datum m, which stands on `here`, would do better on `there`.
fn is_better(tables: &Tables<'_>, m: usize, here: usize, there: usize) -> bool
    requires { (m < 16) × (here < 8) × (there < 8) }
    ensures { result ≡ bit (exchange (table_in tables.now) (m * 8 + here)) there }
{
    let better = usize::from(tables.bytes[EXCHANGES + (m * 8 + here)]);
    (better >> there) % 2 == 1
}

// Block m is a datum that would do better at its other end. If it does not have one writer and one reader, their numbers are those of no block.
fn moves(tables: &Tables<'_>, place: u64, m: usize) -> bool
    requires { m < tables.now.blocks }
    ensures { result
        ≡ better_on (table_in tables.now) (digits tables.now.blocks place) m (moves_to (table_in tables.now) (digits tables.now.blocks place) m) }
{
    let writer = usize::from(tables.bytes[PAIRS + 2 * m]);
    if MOST_BLOCKS <= writer {
        return false;
    }
    let reader = usize::from(tables.bytes[PAIRS + (2 * m + 1)]);
    let from = cloud_in(place, tables.blocks, writer);
    let to = cloud_in(place, tables.blocks, reader);
    if from == to {
        return false;
    }
    let here = cloud_in(place, tables.blocks, m);
    if here == from {
        return is_better(tables, m, here, to);
    }
    if here == to {
        return is_better(tables, m, here, from);
    }
    false
}

pub fn stands(tables: &Tables<'_>, place: u64) -> bool
    ensures { result ≡ stands_in tables.now place }
{
    for m in 0..tables.blocks {
        if moves(tables, place, m) {
            return false;
        }
    }
    true
}
