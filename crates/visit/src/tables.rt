// The tables of a problem, as a walk is lent them.
ghost use Rattle.std.specs.Prelude.{◌≤◌};
ghost use Rattle.visit.specs.Tables.{Paired, tables};

// The most blocks there can be.
pub const MOST_BLOCKS: usize = 16;

// Where each table lies in the lent words and bytes; the same as in specs/Tables.antt.
pub const OWN: usize = 0;

pub const TERMS: usize = 128;

pub const TABLE_WORDS: usize = 2176;

pub const ENDS: usize = 0;

pub const STARTS: usize = 64;

pub const MASKS: usize = 81;

pub const PAIRS: usize = 97;

pub const CONFLICTS: usize = 129;

pub const EXCHANGES: usize = 266;

pub const TABLE_BYTES: usize = 394;

pub type TableWords = [u64; TABLE_WORDS];

pub type TableBytes = [u8; TABLE_BYTES];

// The tables of some blocks, filled.
#[derive(Clone, Copy)]
pub struct Tables<'a> {
    pub words: &'a TableWords,
    pub bytes: &'a TableBytes,
    pub blocks: usize,
    pub ghost few: { blocks ≤ 16 },
    pub ghost paired: { Paired (tables words.now bytes.now) blocks },
}
