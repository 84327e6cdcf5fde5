// The data between one writer and one reader, and on which cloud each would do better.
#![tactic(auto)]

ghost use Rattle.std.specs.Prelude.{◌≡◌, ◌+◌, ◌*◌, ◌++◌, ◌<◌, ◌≤◌, take, drop, replicate};
ghost use Rattle.description.specs.Declarations.{block, cloud, same_way};
ghost use Rattle.description.specs.Invariants.{WellFormed};
ghost use Rattle.exchange_tables.specs.Exchanges.{noted_with, Noted, paired, deciding_of, copied};
ghost use Rattle.sequences.specs.Bits.{bit};
ghost use Rattle.table_entries.specs.Building.{pairs_of, words_of, deciding, better_by, bits_by, Stored, exchanges_by};
ghost use Rattle.visit.specs.Tables.{exchanges_from};

use costs::cost::gigabytes;
use description::workflow::{Description, Edge, Kind, MOST_BLOCKS, MOST_CLOUDS, Way};
use visit::tables::{EXCHANGES, MASKS, PAIRS, TableBytes, TableWords};

// In the table of pairs, in place of two services: the datum has not one writer and one reader.
const NO_SERVICE: u8 = 255;

// The services that read, or write, a datum by the edges that were looked at.
#[derive(Clone, Copy)]
enum Only {
    Nobody,
    One(u8),
    Several,
}

impl Only {
    // With one more service.
    fn with(self, service: u8) -> Only
        ensures { result ≡ noted_with self service }
    {
        match self {
            Only::Nobody => Only::One(service),
            Only::One(_) | Only::Several => Only::Several,
        }
    }
}

// The edge reads, or writes, as `way` says.
fn goes(way: Way, e: Edge) -> bool
    ensures { result ≡ same_way way e.way }
{
    e.way == way
}

// The same for each datum, by all edges.
fn noted(w: &Description, way: Way) -> [Only; MOST_BLOCKS]
    requires well_formed { WellFormed w.now }
    ensures { Noted way w.now.edges result }
{
    let mut notes = [Only::Nobody; MOST_BLOCKS];
    for e in w.edges() {
        if goes(way, *e) {
            let m = usize::from(e.datum);
            notes[m] = notes[m].with(e.service);
        }
    }
    notes
}

// The only writer and the only reader; NO_SERVICE twice if there is not one of each.
fn paired(writers: Only, readers: Only) -> (u8, u8)
    ensures writer { result.0 ≡ paired writers readers 0 }
    ensures reader { result.1 ≡ paired writers readers 1 }
{
    match (writers, readers) {
        (Only::One(writer), Only::One(reader)) => (writer, reader),
        _ => (NO_SERVICE, NO_SERVICE),
    }
}

// Entries 2 m and 2 m + 1 belong to datum m.
pub fn fill_pairs(w: &Description, a: &mut [u8])
    requires well_formed { WellFormed w.now }
    requires a_value { a.old ≡ replicate 32 0 }
    ensures { a.new ≡ pairs_of w.now }
{
    let writers = noted(w, Way::Writes);
    let readers = noted(w, Way::Reads);
    for m in 0..w.block_count() {
        let (writer, reader) = paired(writers[m], readers[m]);
        a[2 * m] = writer;
        a[2 * m + 1] = reader;
    }
}

// What decides if a datum stands on one cloud and its copy on another. If it is kept for more than a month, its storage alone: the copy makes
// up for only one month of the difference. If it is not kept at all, what its gigabytes cost as a copy. If it is kept for a month, nothing:
// both clouds cost the same.
#[derive(Clone, Copy)]
enum Deciding {
    Storage,
    Copied(u64),
    Nothing,
}

impl Deciding {
    fn of(kind: Kind) -> Deciding
        ensures value { result ≡ deciding_of kind }
        ensures upper_bound { copied result ≤ 6554 }
    {
        match kind {
            Kind::Datum { size, longevity } => {
                if longevity > 1 {
                    Deciding::Storage
                } else if longevity == 0 {
                    Deciding::Copied(gigabytes(size))
                } else {
                    Deciding::Nothing
                }
            }
            Kind::Service { .. } => Deciding::Nothing,
        }
    }
}

// A datum with one writer and one reader: it may stand on the clouds of its mask.
#[derive(Drop)]
struct PairedDatum<'a> {
    description: &'a Description,
    words: &'a TableWords,
    number: usize,
    mask: u8,
    deciding: Deciding,
    ghost number_low: { number < 16 },
    ghost words_filled: { words.now ≡ words_of description.now },
    ghost decided: { deciding ≡ deciding_of (block description.now number).kind },
    ghost copied_low: { copied deciding ≤ 6554 },
}

impl<'a> PairedDatum<'a> {
    fn new(w: &'a Description, words: &'a TableWords, number: usize, mask: u8) -> PairedDatum<'a>
        requires number_low { number < 16 }
        requires words_value { words.now ≡ words_of w.now }
        ensures description { result.description.now ≡ w.now }
        ensures number { result.number ≡ number }
        ensures mask { result.mask ≡ mask }
    {
        PairedDatum {
            description: w,
            words,
            number,
            mask,
            deciding: Deciding::of(w.block_at(number).kind),
        }
    }

    #[tactic(auto, using(sequences::proofs::Bits::bit_is))]
    fn may_stand(&self, k: usize) -> bool
        requires { k < 8 }
        ensures { result ≡ bit self.now.mask k }
    {
        (self.mask >> k) % 2 == 1
    }

    // What decides if it stands on one cloud and its copy on another.
    fn cost(&self, on: usize, other: usize) -> u64
        requires { on < 8 }
        ensures { result
            ≡ deciding (block self.now.description.now self.now.number).kind (cloud self.now.description.now on) (cloud self.now.description.now other) }
    {
        match self.deciding {
            Deciding::Storage => self.words[self.number * MOST_CLOUDS + on],
            Deciding::Copied(quantity) => {
                u64::from(self.description.cloud_at(other).storage) * quantity
            }
            Deciding::Nothing => 0,
        }
    }

    // On `there` it may stand, and costs less than on `here`, or the same and `there` is the lower cloud.
    fn is_better(&self, here: usize, there: usize) -> bool
        requires here_bound { here < 8 }
        requires there_bound { there < 8 }
        ensures { result
            ≡ better_by self.now.description.now self.now.mask self.now.number here there }
    {
        if !self.may_stand(there) {
            return false;
        }
        let new = self.cost(there, here);
        let old = self.cost(here, there);
        new < old || (new == old && there < here)
    }

    // The clouds on which it would do better than on `here`, from the highest bit down; none if it may not stand there at all.
    fn better_bits(&self, clouds: usize, here: usize) -> u8
        requires clouds_bound { clouds ≤ 8 }
        requires here_bound { here < 8 }
        ensures { result
            ≡ bits_by self.now.description.now self.now.mask clouds self.now.number here }
    {
        if !self.may_stand(here) {
            return 0;
        }
        let mut better: u8 = 0;
        for there in (0..clouds).rev() {
            better = u8::from(self.is_better(here, there)) + 2 * better;
        }
        better
    }

    // Stores them for each cloud.
    fn put_exchanges(&self, clouds: usize, bytes: &mut TableBytes)
        requires { clouds ≤ 8 }
        ensures { Stored (bits_by self.now.description.now self.now.mask clouds self.now.number) (exchanges_from + self.now.number * 8) clouds bytes.old bytes.new }
    {
        for here in 0..clouds {
            bytes[EXCHANGES + self.number * MOST_CLOUDS + here] = self.better_bits(clouds, here);
        }
    }
}

// Where each datum would do better, by the masks and pairs of the other tables.
pub fn fill_exchanges(
    w: &Description,
    words: &TableWords,
    bytes: &mut TableBytes,
    blocks: usize,
    clouds: usize,
)
    requires blocks_bound { (blocks ≤ 16) × (clouds ≤ 8) }
    requires words_value { words.now ≡ words_of w.now }
    requires bytes_value { drop exchanges_from bytes.old ≡ replicate 128 0 }
    ensures { bytes.new
        ≡ take exchanges_from bytes.old ++ exchanges_by w.now bytes.old blocks clouds }
{
    for m in 0..blocks {
        let has_pair = usize::from(bytes[PAIRS + 2 * m]) < MOST_BLOCKS;
        if has_pair {
            let datum = PairedDatum::new(w, words, m, bytes[MASKS + m]);
            datum.put_exchanges(clouds, bytes);
        }
    }
}
