// What a description declares: clouds, blocks, edges and pairs, in order of appearance.
ghost use Rattle.std.specs.Prelude.{◌≡◌, ◌<◌, ◌≤◌, length};
ghost use Rattle.description.specs.Declarations.{cloud, block, edge, pair, nothing, with_cloud, with_block, with_edge, with_pin, with_pair};
ghost use Rattle.description.specs.Declarations.{is_datum, is_write};

use arrayvec::ArrayVec;
use std::marker::Model;

// What a description may declare at most.
pub const MOST_CLOUDS: usize = 8;

pub const MOST_BLOCKS: usize = 16;

pub const MOST_EDGES: usize = 32;

pub const MOST_PAIRS: usize = 8;

#[derive(Clone, Copy, Debug, Default, PartialEq, Eq)]
pub struct Cloud {
    pub label: u8,
    pub storage: u16,
    pub inward: u16,
    pub outward: u16,
    pub cpu: u16,
}

// What a block is, with the fields that only that kind has.
#[derive(Clone, Copy, Debug, PartialEq, Eq)]
pub enum Kind {
    Datum { size: u16, longevity: u16 },
    Service { clearance: u8, units: u32 },
}

impl Kind {
    pub fn is_datum(self) -> bool
        ensures { result ≡ is_datum self }
    {
        matches!(self, Kind::Datum { .. })
    }
}

// A block: its label (for a service, its location), its kind's own fields, and the one cloud that it may stand on, if it is pinned.
#[derive(Clone, Copy, Debug, PartialEq, Eq)]
pub struct Block {
    pub label: u8,
    pub kind: Kind,
    pub pin: Option<u8>,
}

impl Default for Block {
    ghost use Rattle.description.specs.Declarations.{no_block};

    ghost is_default = { λ b. b ≡ no_block };

    fn default() -> Self {
        Block {
            label: 0,
            kind: Kind::Datum {
                size: 0,
                longevity: 0,
            },
            pin: None,
        }
    }
}

#[derive(Clone, Copy, Debug, Default, PartialEq, Eq)]
pub enum Way {
    #[default]
    Reads,
    Writes,
}

impl Way {
    pub fn is_write(self) -> bool
        ensures { result ≡ is_write self }
    {
        matches!(self, Way::Writes)
    }
}

#[derive(Clone, Copy, Debug, Default, PartialEq, Eq)]
pub struct Edge {
    pub way: Way,
    pub service: u8,
    pub datum: u8,
}

// Two data that no cloud may hold together: an anti-affinity, in the usual term for placements.
#[derive(Clone, Copy, Debug, Default, PartialEq, Eq)]
pub struct Pair {
    pub left: u8,
    pub right: u8,
}

// A description, within the format's limits.
#[derive(Clone, Debug, Drop)]
pub struct Description {
    clouds: ArrayVec<Cloud, MOST_CLOUDS>,
    blocks: ArrayVec<Block, MOST_BLOCKS>,
    edges: ArrayVec<Edge, MOST_EDGES>,
    pairs: ArrayVec<Pair, MOST_PAIRS>,
}

impl Model for Description {
    ghost use Rattle.description.specs.Declarations.{Description};
    ghost use Rattle.description.specs.Invariants.{Limits};

    ghost Value = { Description };

    ghost view = { λ d. record { clouds = d.clouds.items; blocks = d.blocks.items; edges = d.edges.items; pairs = d.pairs.items } };

    ghost invariant = { λ d. Limits (record { clouds = d.clouds.items; blocks = d.blocks.items; edges = d.edges.items; pairs = d.pairs.items }) };
}

// What is declared. A look-up past the last one answers an element with zeros, as the definitions do, so nobody has to know that a name is
// declared.
impl Description {
    // Nothing yet.
    pub fn new() -> Description
        ensures { result ≡ nothing }
    {
        Description {
            clouds: ArrayVec::new(),
            blocks: ArrayVec::new(),
            edges: ArrayVec::new(),
            pairs: ArrayVec::new(),
        }
    }

    // Nothing any more.
    pub fn clear(&mut self)
        ensures { self.new ≡ nothing }
    {
        self.clouds.clear();
        self.blocks.clear();
        self.edges.clear();
        self.pairs.clear();
    }

    pub fn clouds(&self) -> &[Cloud]
        ensures value { result.now ≡ self.now.clouds }
        ensures upper_bound { length result.now ≤ 8 }
    {
        self.clouds.as_slice()
    }

    pub fn blocks(&self) -> &[Block]
        ensures value { result.now ≡ self.now.blocks }
        ensures upper_bound { length result.now ≤ 16 }
    {
        self.blocks.as_slice()
    }

    pub fn edges(&self) -> &[Edge]
        ensures value { result.now ≡ self.now.edges }
        ensures upper_bound { length result.now ≤ 32 }
    {
        self.edges.as_slice()
    }

    pub fn pairs(&self) -> &[Pair]
        ensures value { result.now ≡ self.now.pairs }
        ensures upper_bound { length result.now ≤ 8 }
    {
        self.pairs.as_slice()
    }

    pub fn cloud_count(&self) -> usize
        ensures value { result ≡ length self.now.clouds }
        ensures upper_bound { result ≤ 8 }
    {
        self.clouds.len()
    }

    pub fn block_count(&self) -> usize
        ensures value { result ≡ length self.now.blocks }
        ensures upper_bound { result ≤ 16 }
        ensures few_clouds { length self.now.clouds ≤ 8 }
    {
        self.blocks.len()
    }

    pub fn edge_count(&self) -> usize
        ensures value { result ≡ length self.now.edges }
        ensures upper_bound { result ≤ 32 }
    {
        self.edges.len()
    }

    pub fn pair_count(&self) -> usize
        ensures value { result ≡ length self.now.pairs }
        ensures upper_bound { result ≤ 8 }
    {
        self.pairs.len()
    }

    pub fn cloud_at(&self, k: usize) -> Cloud
        ensures { result ≡ cloud self.now k }
    {
        self.clouds.get(k).copied().unwrap_or_default()
    }

    pub fn block_at(&self, b: usize) -> Block
        ensures { result ≡ block self.now b }
    {
        self.blocks.get(b).copied().unwrap_or_default()
    }

    pub fn edge_at(&self, n: usize) -> Edge
        ensures { result ≡ edge self.now n }
    {
        self.edges.get(n).copied().unwrap_or_default()
    }

    pub fn pair_at(&self, n: usize) -> Pair
        ensures { result ≡ pair self.now n }
    {
        self.pairs.get(n).copied().unwrap_or_default()
    }

    // A block that is known to be declared: nothing is compared.
    pub fn declared_block(&self, b: usize) -> Block
        requires { b < length self.now.blocks }
        ensures { result ≡ block self.now b }
    {
        self.blocks[b]
    }

    pub fn put_cloud(&mut self, c: Cloud)
        requires { length self.old.clouds < 8 }
        ensures { self.new ≡ with_cloud self.old c }
    {
        self.clouds.push(c);
    }

    pub fn put_block(&mut self, b: Block)
        requires { length self.old.blocks < 16 }
        ensures { self.new ≡ with_block self.old b }
    {
        self.blocks.push(b);
    }

    pub fn put_edge(&mut self, e: Edge)
        requires { length self.old.edges < 32 }
        ensures { self.new ≡ with_edge self.old e }
    {
        self.edges.push(e);
    }

    pub fn put_pair(&mut self, a: Pair)
        requires { length self.old.pairs < 8 }
        ensures { self.new ≡ with_pair self.old a }
    {
        self.pairs.push(a);
    }

    // Pins a declared block to cloud k.
    pub fn put_pin(&mut self, b: usize, k: u8)
        requires { b < length self.old.blocks }
        ensures { self.new ≡ with_pin self.old b k }
    {
        self.blocks[b].pin = Some(k);
    }
}
