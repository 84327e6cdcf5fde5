// The lines of a picture, and the whole picture.
ghost use Rattle.std.specs.Prelude.{◌≡◌, [], ◌++◌, ◌+◌, ◌≤◌, length};
ghost use Rattle.picture.specs.Picture.{edge_lines, block_line, block_lines, edge_line, path_of, touches, has_edge, line, picture};
ghost use Rattle.picture.specs.Sheets.{edge_room, edges_room, block_room, blocks_room, sheet_bytes};

use crate::sheet::{Node, Sheet};
use description::workflow::{Description, Edge, Way};
use placements::{cloud_of, moves};

// The line of edge i. A moved datum is copied to the service's cloud by a transfer.
fn put_edge(sheet: &mut Sheet, i: u8, placement: [u8; 16], e: Edge)
    requires { length sheet.old + edge_room ≤ sheet_bytes }
    ensures value { sheet.new ≡ sheet.old ++ line (path_of i placement e) }
    ensures few { length sheet.new ≤ length sheet.old + edge_room }
{
    let service_cloud = cloud_of(placement, usize::from(e.service));
    let datum_cloud = cloud_of(placement, usize::from(e.datum));
    let service = Node::Service {
        number: e.service,
        cloud: service_cloud,
    };
    let datum = Node::Datum {
        number: e.datum,
        cloud: datum_cloud,
    };
    let transfer = Node::Transfer { edge: i };
    let copy = Node::Copy {
        datum: e.datum,
        cloud: service_cloud,
        edge: i,
    };
    match (e.way, moves(placement, e)) {
        (Way::Reads, false) => sheet.put_line(datum, &[service]),
        (Way::Reads, true) => sheet.put_line(datum, &[transfer, copy, service]),
        (Way::Writes, false) => sheet.put_line(service, &[datum]),
        (Way::Writes, true) => sheet.put_line(service, &[copy, transfer, datum]),
    }
}

#[tactic(auto, unfolding(crate::specs::Picture::edge_line))]
fn put_edges(sheet: &mut Sheet, w: &Description, placement: [u8; 16])
    requires { length sheet.old + edges_room ≤ sheet_bytes }
    ensures value { sheet.new ≡ sheet.old ++ edge_lines w.now placement }
    ensures few { length sheet.new ≤ length sheet.old + edges_room }
{
    for (i, e) in w.edges().iter().enumerate() {
        put_edge(sheet, i as u8, placement, *e);
    }
}

// The block is the edge's service or its datum.
fn touches(b: u8, e: Edge) -> bool
    ensures { result ≡ touches b e }
{
    e.service == b || e.datum == b
}

#[tactic(auto, unfolding(crate::specs::Picture::has_edge))]
fn has_edge(w: &Description, b: u8) -> bool
    ensures { result ≡ has_edge w.now b }
{
    w.edges().iter().any(|e| touches(b, *e))
}

// The line of block b, if it has no edge.
#[tactic(auto, unfolding(crate::specs::Picture::block_line))]
fn put_block(sheet: &mut Sheet, w: &Description, placement: [u8; 16], b: u8)
    requires { length sheet.old + block_room ≤ sheet_bytes }
    ensures value { sheet.new ≡ sheet.old ++ block_line w.now placement b }
    ensures few { length sheet.new ≤ length sheet.old + block_room }
{
    if has_edge(w, b) {
        return;
    }
    let block = w.block_at(usize::from(b));
    let cloud = cloud_of(placement, usize::from(b));
    sheet.put_line(Node::of_block(block.kind, b, cloud), &[]);
}

fn put_blocks(sheet: &mut Sheet, w: &Description, placement: [u8; 16])
    requires { length sheet.old + blocks_room ≤ sheet_bytes }
    ensures value { sheet.new ≡ sheet.old ++ block_lines w.now placement }
    ensures few { length sheet.new ≤ length sheet.old + blocks_room }
{
    for b in 0..w.block_count() {
        put_block(sheet, w, placement, b as u8);
    }
}

// The whole picture, on an empty sheet.
#[tactic(auto, unfolding(crate::specs::Picture::picture))]
pub fn draw(sheet: &mut Sheet, w: &Description, placement: [u8; 16])
    requires { sheet.old ≡ [] }
    ensures { sheet.new ≡ picture w.now placement }
{
    sheet.put_text(b"digraph p {\n");
    put_edges(sheet, w, placement);
    put_blocks(sheet, w, placement);
    sheet.put_text(b"}\n");
}
