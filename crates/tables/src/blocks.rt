// What blocks are charged on each cloud.
ghost use Rattle.std.specs.Prelude.{◌≡◌, ◌*◌, ◌<◌, length, replicate};
ghost use Rattle.costs.specs.Terms.{block_term};
ghost use Rattle.table_entries.specs.Building.{own_of, Stored};

use costs::terms::block_term;
use description::workflow::{Description, MOST_CLOUDS};

// The row of block b.
fn put_charges(w: &Description, b: usize, a: &mut [u64])
    requires b_bound { b < 16 }
    requires a_len { length a.old ≡ 128 }
    ensures { Stored (block_term w.now b) (b * 8) (length w.now.clouds) a.old a.new }
{
    for k in 0..w.cloud_count() {
        a[b * MOST_CLOUDS + k] = block_term(w, b, k);
    }
}

// Rows of eight entries, one for each block; a block or cloud that is not declared is charged nothing.
pub fn fill_own(w: &Description, a: &mut [u64])
    requires { a.old ≡ replicate 128 0 }
    ensures { a.new ≡ own_of w.now }
{
    for b in 0..w.block_count() {
        put_charges(w, b, a);
    }
}
