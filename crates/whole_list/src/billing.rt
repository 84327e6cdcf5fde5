// Rows that were sorted by their keys get their bills: each grows from two words to five.
ghost use Rattle.std.specs.Prelude.{◌≡◌, [], ◌∷◌, ◌++◌, ◌+◌, ◌*◌, ◌≤◌, length, drop, replicate};
ghost use Rattle.std.proofs.lemmas.List.Edits.{sets};
ghost use Rattle.description.specs.Invariants.{WellFormed};
ghost use Rattle.whole_list.specs.Billing.{key_at, Priced, AllPriced, billed, billed_front};

use crate::{KEY_WORDS, ROW_WORDS};
use costs::answers::Bill;
use costs::bills::Prices;
use description::workflow::Description;
use packing::unpacked;

fn put_row(rows: &mut [u64], at: usize, cost: u64, place: u64, bill: Bill)
    requires { at + 5 ≤ length rows.old }
    ensures { rows.new ≡ sets rows.old at (cost ∷ place ∷ bill.storage ∷ bill.transfer ∷ bill.cpu ∷ []) }
{
    let words = [cost, place, bill.storage, bill.transfer, bill.cpu];
    rows[at..at + ROW_WORDS].copy_from_slice(&words);
}

// Row i is written to its words, and its key is cleared.
fn bill_row(prices: &Prices<'_>, blocks: usize, keys: &mut [u64], rows: &mut [u64], i: usize)
    requires well_formed { WellFormed prices.now }
    requires blocks_value { (blocks ≡ length prices.now.blocks) × (blocks ≤ 16) }
    requires i_in_bounds { (i * 2 + 2 ≤ length keys.old) × (i * 5 + 5 ≤ length rows.old) }
    requires priced { Priced prices.now (key_at keys.old i) }
    ensures keys_after { keys.new ≡ sets keys.old (i * 2) (0 ∷ 0 ∷ []) }
    ensures rows_after { rows.new ≡ sets rows.old (i * 5) (billed prices.now (key_at keys.old i)) }
{
    let key = i * KEY_WORDS;
    let cost = keys[key];
    let place = keys[key + 1];
    keys[key] = 0;
    keys[key + 1] = 0;
    let placement = unpacked(place, blocks);
    let bill = prices.bill_by(&placement, cost);
    put_row(rows, i * ROW_WORDS, cost, place, bill);
}

// The first n rows, in the order of their keys, by rates and quantities that are written down once. What is beyond them stays.
pub fn bill_rows(w: &Description, keys: &mut [u64], rows: &mut [u64], n: usize)
    requires well_formed { WellFormed w.now }
    requires n_in_bounds { (n * 2 ≤ length keys.old) × (n * 5 ≤ length rows.old) }
    requires all_priced { AllPriced w.now n keys.old }
    ensures keys_after { keys.new ≡ replicate (n * 2) 0 ++ drop (n * 2) keys.old }
    ensures rows_after { rows.new ≡ billed_front w.now n keys.old ++ drop (n * 5) rows.old }
{
    let blocks = w.block_count();
    let prices = Prices::of(w);
    for i in 0..n {
        bill_row(&prices, blocks, keys, rows, i);
    }
}
