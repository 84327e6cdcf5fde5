// A walk over all placements of a table of blocks. Each is met exactly once, in lexicographic order: each block is put on each cloud where
// it may stand, and the weight of the blocks so far is passed down.
#![tactic(auto)]

ghost use Rattle.std.specs.Prelude.{◌+◌, ◌-◌, ◌*◌, ◌^◌, ◌<◌, ◌≡◌};
ghost use Rattle.visit.specs.Lent.{table_in};
ghost use Rattle.visit.specs.Tables.{Ready};
ghost use Rattle.walk.specs.Turning.{Carried, Loaded, Room, Under, WalkedBelow, Turned};
ghost use Rattle.walk.specs.Walking.{see_all};

mod set_bits;

use set_bits::SetBits;
use visit::tables::{MASKS, STARTS, TERMS, Tables};
use visit::{Met, Visitor};

// A block whose turn it is: its number, and its edges, from lo to below hi. What its turns share is loaded once: after a turn's stores to
// the visitor the compiler would load it again.
#[derive(Clone, Copy)]
struct Block {
    at: usize,
    lo: usize,
    hi: usize,
}

// The placement with the block on cloud c as well.
fn step(tables: &Tables<'_>, block: Block, met: Met, c: u64) -> Met
    requires ready { Ready (table_in tables.now) tables.now.blocks }
    requires c_bound { (c < 8) × (met.place < 8 ^ block.at) }
    requires loaded { Loaded tables.now block.at block }
    requires carried { Carried tables.now block.at met }
    ensures place { result.place ≡ met.place * 8 + c }
    ensures carried { Carried tables.now (block.at + 1) result }
{
    let x = c as usize;
    let place = met.place * 8 + c;
    let mut weight = met.weight + tables.words[block.at * 8 + x];
    for e in block.lo..block.hi {
        let shift = usize::from(tables.bytes[2 * e + 1]);
        let y = ((place >> shift) % 8) as usize;
        weight += tables.words[TERMS + (e * 64 + x * 8 + y)];
    }
    Met { weight, place }
}

// Meets the placements below a prefix, whose last `left` blocks have no cloud yet. It goes from set bit to set bit of the next block's mask.
#[cycle(turn_walk)]
fn walk<V: Visitor>(tables: &Tables<'_>, left: usize, met: Met, visitor: &mut V)
    requires under { Under tables.now (tables.now.blocks - left) left met }
    requires room { (0 < left) × Room left (V.tally visitor.old) }
    ensures { WalkedBelow tables.now V.see V.tally visitor.old (tables.now.blocks - left) left met.place visitor.new }
{
    let at = tables.blocks - left;
    let lo = usize::from(tables.bytes[STARTS + at]);
    let hi = usize::from(tables.bytes[STARTS + (at + 1)]);
    let block = Block { at, lo, hi };
    for c in SetBits::new(tables.bytes[MASKS + at]) {
        turn(tables, left, block, met, c, visitor);
    }
}

// Meets those of them whose next block is on cloud c.
#[cycle(turn_walk)]
fn turn<V: Visitor>(
    tables: &Tables<'_>,
    left: usize,
    block: Block,
    met: Met,
    c: u64,
    visitor: &mut V,
)
    requires under { Under tables.now (tables.now.blocks - left) left met }
    requires room { (0 < left) × (c < 8) × Room (left - 1) (V.tally visitor.old) }
    requires loaded { Loaded tables.now (tables.now.blocks - left) block }
    ensures { Turned tables.now V.see V.tally visitor.old (tables.now.blocks - left) (left - 1) met.place c visitor.new }
{
    let next = step(tables, block, met, c);
    if left == 1 {
        visitor.meet(tables, next);
        return;
    }
    walk(tables, left - 1, next, visitor);
}

// Meets every placement of the blocks.
pub fn walk_all<V: Visitor>(tables: &Tables<'_>, visitor: &mut V)
    requires fresh { V.tally visitor.old ≡ 0 }
    requires ready { Ready (table_in tables.now) tables.now.blocks }
    ensures { visitor.new ≡ see_all V.see (table_in tables.now) tables.now.blocks visitor.old }
{
    walk(
        tables,
        tables.blocks,
        Met {
            weight: 0,
            place: 0,
        },
        visitor,
    );
}
