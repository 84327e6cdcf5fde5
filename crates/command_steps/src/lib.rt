// One command at the front of some bytes: what it declares is put into a description, or its fault is told.
#![tactic(auto)]

ghost use Rattle.std.specs.Prelude.{◌≡◌, ◌+◌, ◌<◌, length};
ghost use Rattle.description.specs.Declarations.{names_datum, names_service};
ghost use Rattle.decoding.specs.Format.{u16_at, u32_at, cloud_at, datum_at, service_at, edge_at, pin_at, pair_at, command_at};
ghost use Rattle.command_steps.specs.Steps.{Steps};

mod repeats;

use description::workflow::{
    Block, Cloud, Description, Edge, Kind, MOST_BLOCKS, MOST_CLOUDS, MOST_EDGES, MOST_PAIRS, Pair,
    Way,
};
use labels::HIGHEST_LABEL;
use refusals::Fault;
use repeats::{clashes_with_any, repeats_any};

// How many bytes each command has.
const CLOUD_WIDTH: usize = 10;

const DATUM_WIDTH: usize = 6;

const SERVICE_WIDTH: usize = 7;

const EDGE_WIDTH: usize = 3;

const PIN_WIDTH: usize = 3;

const PAIR_WIDTH: usize = 3;

const UNKNOWN_WIDTH: usize = 1;

// What a command declares: the byte that it begins with says so.
#[derive(Clone, Copy, Debug, PartialEq, Eq)]
enum Command {
    Cloud,
    Datum,
    Service,
    Edge(Way),
    Pin,
    Pair,
}

impl TryFrom<u8> for Command {
    type Error = Fault;

    ghost use Rattle.command_steps.specs.Steps.{Names};

    ghost try_from_gives = { Names };

    fn try_from(byte: u8) -> Result<Command, Fault> {
        match byte {
            1 => Ok(Command::Cloud),
            2 => Ok(Command::Datum),
            3 => Ok(Command::Service),
            4 => Ok(Command::Edge(Way::Reads)),
            5 => Ok(Command::Edge(Way::Writes)),
            6 => Ok(Command::Pin),
            7 => Ok(Command::Pair),
            _ => Err(Fault::UnknownCommand),
        }
    }
}

// A command that is refused: why, and how many bytes it was to have.
#[derive(Clone, Copy, Debug, PartialEq, Eq)]
pub struct BadCommand {
    pub fault: Fault,
    pub width: usize,
}

fn bad(fault: Fault, width: usize) -> BadCommand
    ensures { result ≡ record { fault = fault; width = width } }
{
    BadCommand { fault, width }
}

// Numbers in bytes, most significant first.
fn be16(s: &[u8], i: usize) -> u16
    requires { i + 1 < length s.now }
    ensures { result ≡ u16_at s.now i }
{
    u16::from_be_bytes([s[i], s[i + 1]])
}

fn be32(s: &[u8], i: usize) -> u32
    requires { i + 3 < length s.now }
    ensures { result ≡ u32_at s.now i }
{
    u32::from_be_bytes([s[i], s[i + 1], s[i + 2], s[i + 3]])
}

fn names_datum(w: &Description, n: usize) -> bool
    ensures { result ≡ names_datum w.now n }
{
    n < w.block_count() && w.block_at(n).kind.is_datum()
}

fn names_service(w: &Description, n: usize) -> bool
    ensures { result ≡ names_service w.now n }
{
    n < w.block_count() && !w.block_at(n).kind.is_datum()
}

fn cloud_step(s: &[u8], w: &mut Description) -> Result<usize, BadCommand>
    ensures { Steps s.now (cloud_at s.now w.old) w.new result }
{
    if s.len() < CLOUD_WIDTH {
        return Err(bad(Fault::CutShort, CLOUD_WIDTH));
    }
    if MOST_CLOUDS <= w.cloud_count() {
        return Err(bad(Fault::TooMany, CLOUD_WIDTH));
    }
    if HIGHEST_LABEL < s[1] {
        return Err(bad(Fault::LabelTooHigh, CLOUD_WIDTH));
    }
    w.put_cloud(Cloud {
        label: s[1],
        storage: be16(s, 2),
        inward: be16(s, 4),
        outward: be16(s, 6),
        cpu: be16(s, 8),
    });
    Ok(CLOUD_WIDTH)
}

fn datum_step(s: &[u8], w: &mut Description) -> Result<usize, BadCommand>
    ensures { Steps s.now (datum_at s.now w.old) w.new result }
{
    if s.len() < DATUM_WIDTH {
        return Err(bad(Fault::CutShort, DATUM_WIDTH));
    }
    if MOST_BLOCKS <= w.block_count() {
        return Err(bad(Fault::TooMany, DATUM_WIDTH));
    }
    if HIGHEST_LABEL < s[1] {
        return Err(bad(Fault::LabelTooHigh, DATUM_WIDTH));
    }
    w.put_block(Block {
        label: s[1],
        kind: Kind::Datum {
            size: be16(s, 2),
            longevity: be16(s, 4),
        },
        pin: None,
    });
    Ok(DATUM_WIDTH)
}

fn service_step(s: &[u8], w: &mut Description) -> Result<usize, BadCommand>
    ensures { Steps s.now (service_at s.now w.old) w.new result }
{
    if s.len() < SERVICE_WIDTH {
        return Err(bad(Fault::CutShort, SERVICE_WIDTH));
    }
    if MOST_BLOCKS <= w.block_count() {
        return Err(bad(Fault::TooMany, SERVICE_WIDTH));
    }
    if HIGHEST_LABEL < s[1] {
        return Err(bad(Fault::LabelTooHigh, SERVICE_WIDTH));
    }
    if HIGHEST_LABEL < s[2] {
        return Err(bad(Fault::LabelTooHigh, SERVICE_WIDTH));
    }
    w.put_block(Block {
        label: s[1],
        kind: Kind::Service {
            clearance: s[2],
            units: be32(s, 3),
        },
        pin: None,
    });
    Ok(SERVICE_WIDTH)
}

fn edge_step(way: Way, s: &[u8], w: &mut Description) -> Result<usize, BadCommand>
    ensures { Steps s.now (edge_at way s.now w.old) w.new result }
{
    if s.len() < EDGE_WIDTH {
        return Err(bad(Fault::CutShort, EDGE_WIDTH));
    }
    if MOST_EDGES <= w.edge_count() {
        return Err(bad(Fault::TooMany, EDGE_WIDTH));
    }
    let e = Edge {
        way,
        service: s[1],
        datum: s[2],
    };
    if !names_service(w, usize::from(e.service)) {
        return Err(bad(Fault::NotDeclared, EDGE_WIDTH));
    }
    if !names_datum(w, usize::from(e.datum)) {
        return Err(bad(Fault::NotDeclared, EDGE_WIDTH));
    }
    if clashes_with_any(w, e) {
        return Err(bad(Fault::Repeated, EDGE_WIDTH));
    }
    w.put_edge(e);
    Ok(EDGE_WIDTH)
}

fn pin_step(s: &[u8], w: &mut Description) -> Result<usize, BadCommand>
    ensures { Steps s.now (pin_at s.now w.old) w.new result }
{
    if s.len() < PIN_WIDTH {
        return Err(bad(Fault::CutShort, PIN_WIDTH));
    }
    let b = usize::from(s[1]);
    let k = s[2];
    if w.block_count() <= b {
        return Err(bad(Fault::NotDeclared, PIN_WIDTH));
    }
    if w.cloud_count() <= usize::from(k) {
        return Err(bad(Fault::NotDeclared, PIN_WIDTH));
    }
    let pinned = w.block_at(b).pin.is_some();
    if pinned {
        return Err(bad(Fault::Repeated, PIN_WIDTH));
    }
    w.put_pin(b, k);
    Ok(PIN_WIDTH)
}

fn pair_step(s: &[u8], w: &mut Description) -> Result<usize, BadCommand>
    ensures { Steps s.now (pair_at s.now w.old) w.new result }
{
    if s.len() < PAIR_WIDTH {
        return Err(bad(Fault::CutShort, PAIR_WIDTH));
    }
    if MOST_PAIRS <= w.pair_count() {
        return Err(bad(Fault::TooMany, PAIR_WIDTH));
    }
    let a = Pair {
        left: s[1],
        right: s[2],
    };
    if !names_datum(w, usize::from(a.left)) {
        return Err(bad(Fault::NotDeclared, PAIR_WIDTH));
    }
    if !names_datum(w, usize::from(a.right)) {
        return Err(bad(Fault::NotDeclared, PAIR_WIDTH));
    }
    if a.left == a.right {
        return Err(bad(Fault::Repeated, PAIR_WIDTH));
    }
    if repeats_any(w, a) {
        return Err(bad(Fault::Repeated, PAIR_WIDTH));
    }
    w.put_pair(a);
    Ok(PAIR_WIDTH)
}

// The command at the front of s, which is not 00; the answer is how many bytes it has.
pub fn command_step(s: &[u8], w: &mut Description) -> Result<usize, BadCommand>
    requires { 0 < length s.now }
    ensures { Steps s.now (command_at s.now w.old) w.new result }
{
    let command = match Command::try_from(s[0]) {
        Ok(command) => command,
        Err(fault) => return Err(bad(fault, UNKNOWN_WIDTH)),
    };
    match command {
        Command::Cloud => cloud_step(s, w),
        Command::Datum => datum_step(s, w),
        Command::Service => service_step(s, w),
        Command::Edge(way) => edge_step(way, s, w),
        Command::Pin => pin_step(s, w),
        Command::Pair => pair_step(s, w),
    }
}
