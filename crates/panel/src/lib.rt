// The eleven calls as C sees them: `panel_c` exports each, and `include/panel.h` declares it. Each answers a status and puts the values of its
// answer into lent arrays.
#![tactic(auto)]

ghost use Rattle.std.specs.Prelude.{◌≡◌, length};
ghost use Rattle.judging.specs.Answers.{masks_after};
ghost use Rattle.judging.specs.Calls.{read_call, masks_call, judge_call, transfers_call};
ghost use Rattle.transfer_list.specs.Transfers.{buffer_after};
ghost use Rattle.picture.specs.Calls.{picture_call, size_call, buffer_after as picture_after};
ghost use Rattle.billing.specs.Calls.{bill_call};
ghost use Rattle.standing.specs.Reasons.{standing_call};
ghost use Rattle.lister.specs.Calls.{census_call, draw_call};
ghost use Rattle.whole_list.specs.WholeList.{capacity, list_call, rows_after, scratch_after};
ghost use Rattle.statuses.specs.Statuses.{status, values_after};
ghost use Rattle.statuses.specs.Values.{counts as count_values, transfer_count, byte_count, figures as figure_values};
ghost use Rattle.statuses.specs.Values.{row_or_none, row_bytes, price, extent as extent_values, one};

use statuses::{put, put_row, status, verdict_status};
use survey::Cursor;

// Read: counts are of clouds, blocks and edges.
pub fn panel_read(description: &[u8], counts: &mut [u64; 3]) -> u64
    ensures value { result ≡ status (read_call description.now) }
    ensures counts_after { counts.new ≡ values_after count_values (read_call description.now) counts.old }
{
    put(judging::read(description), counts)
}

// Masks: bit k of byte b says that block b may stand on cloud k.
pub fn panel_masks(description: &[u8], masks: &mut [u8; 16]) -> u64
    ensures value { result ≡ status (masks_call description.now) }
    ensures masks_after { masks.new ≡ masks_after (masks_call description.now) masks.old }
{
    status(judging::masks(description, masks))
}

// Judge: secure if the status is 0.
pub fn panel_judge(description: &[u8], placement: &[u8; 16]) -> u64
    ensures { result ≡ status (judge_call description.now placement.now) }
{
    verdict_status(judging::judge(description, *placement))
}

// Transfers: their bytes at the front of the buffer, and how many there are.
pub fn panel_transfers(
    description: &[u8],
    placement: &[u8; 16],
    buffer: &mut [u8],
    count: &mut [u64; 1],
) -> u64
    ensures value { result ≡ status (transfers_call description.now placement.now (length buffer.old)) }
    ensures buffer_after { buffer.new
        ≡ buffer_after (transfers_call description.now placement.now (length buffer.old)) buffer.old }
    ensures count_after { count.new
        ≡ values_after transfer_count (transfers_call description.now placement.now (length buffer.old)) count.old }
{
    put(judging::transfers(description, *placement, buffer), count)
}

// Picture: its text at the front of the buffer, and how many bytes that has.
pub fn panel_picture(
    description: &[u8],
    placement: &[u8; 16],
    buffer: &mut [u8],
    count: &mut [u64; 1],
) -> u64
    ensures value { result ≡ status (picture_call description.now placement.now (length buffer.old)) }
    ensures buffer_after { buffer.new
        ≡ picture_after (picture_call description.now placement.now (length buffer.old)) buffer.old }
    ensures count_after { count.new
        ≡ values_after byte_count (picture_call description.now placement.now (length buffer.old)) count.old }
{
    put(picture::picture(description, *placement, buffer), count)
}

// Picture size: the same number, and nothing is written.
pub fn panel_picture_size(description: &[u8], placement: &[u8; 16], count: &mut [u64; 1]) -> u64
    ensures value { result ≡ status (size_call description.now placement.now) }
    ensures count_after { count.new ≡ values_after one (size_call description.now placement.now) count.old }
{
    put(picture::picture_size(description, *placement), count)
}

// Bill: the cost of a secure placement, then its storage, transfer and cpu.
pub fn panel_bill(description: &[u8], placement: &[u8; 16], amounts: &mut [u64; 4]) -> u64
    ensures value { result ≡ status (bill_call description.now placement.now) }
    ensures amounts_after { amounts.new ≡ values_after price (bill_call description.now placement.now) amounts.old }
{
    put(billing::bill(description, *placement), amounts)
}

// Standing: why a position may not have a cloud; 0 if it may.
pub fn panel_standing(description: &[u8], position: usize, cloud: u8, reason: &mut [u64; 1]) -> u64
    ensures value { result ≡ status (standing_call description.now position cloud) }
    ensures reason_after { reason.new ≡ values_after one (standing_call description.now position cloud) reason.old }
{
    put(standing::standing(description, position, cloud), reason)
}

// Census: the six figures.
pub fn panel_census(description: &[u8], figures: &mut [u64; 6]) -> u64
    ensures value { result ≡ status (census_call description.now) }
    ensures figures_after { figures.new ≡ values_after figure_values (census_call description.now) figures.old }
{
    put(lister::census(description), figures)
}

// Draw: whether there is a row past the cursor, and that row with its bill.
pub fn panel_draw(
    description: &[u8],
    start: bool,
    cost: u64,
    placement: &[u8; 16],
    answer: &mut [u64; 5],
    row: &mut [u8; 16],
) -> u64
    ensures value { result ≡ status (draw_call description.now (record { start = start; cost = cost; placement = placement.now })) }
    ensures answer_after { answer.new
        ≡ values_after row_or_none (draw_call description.now (record { start = start; cost = cost; placement = placement.now }))
        answer.old }
    ensures row_after { row.new
        ≡ values_after row_bytes (draw_call description.now (record { start = start; cost = cost; placement = placement.now }))
        row.old }
{
    let cursor = Cursor {
        start,
        cost,
        placement: *placement,
    };
    put_row(lister::draw(description, cursor), answer, row)
}

// List: the rows in lent words, five for each row; then how many rows there are, and how many blocks.
pub fn panel_list(
    description: &[u8],
    rows: &mut [u64],
    scratch: &mut [u64],
    extent: &mut [u64; 2],
) -> u64
    ensures value { result ≡ status (list_call description.now (capacity (length rows.old) (length scratch.old))) }
    ensures rows_after { rows.new
        ≡ rows_after description.now (capacity (length rows.old) (length scratch.old)) rows.old }
    ensures scratch_after { scratch.new
        ≡ scratch_after description.now (capacity (length rows.old) (length scratch.old)) scratch.old }
    ensures extent_after { extent.new
        ≡ values_after extent_values (list_call description.now (capacity (length rows.old) (length scratch.old)))
        extent.old }
{
    put(whole_list::list(description, rows, scratch), extent)
}
