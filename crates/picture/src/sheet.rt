// The sheet that a picture is drawn on: texts, numbers, nodes and lines, each put after what is there.
ghost use Rattle.std.specs.Prelude.{ℕ, List, ◌≡◌, [], ◌∷◌, ◌++◌, ◌+◌, ◌<◌, ◌≤◌, length};
ghost use Rattle.list_text.specs.Lines.{decimal};
ghost use Rattle.picture.specs.Nodes.{node_text, path_text};
ghost use Rattle.picture.specs.Picture.{node, letter_of, line};
ghost use Rattle.picture.specs.Sheets.{sheet_bytes};

use arrayvec::ArrayVec;
use description::workflow::Kind;
use std::marker::Model;

// Enough for any description, `sheet_bytes` in specs/Sheets.antt.
const SHEET_BYTES: usize = 1774;

// What a line names: a block on a cloud, the transfer on an edge, or the copy of a datum that this transfer makes.
#[derive(Clone, Copy)]
pub enum Node {
    Datum { number: u8, cloud: u8 },
    Service { number: u8, cloud: u8 },
    Transfer { edge: u8 },
    Copy { datum: u8, cloud: u8, edge: u8 },
}

impl Node {
    pub fn of_block(kind: Kind, number: u8, cloud: u8) -> Node
        ensures { node_text result ≡ node (letter_of kind) number cloud }
    {
        match kind {
            Kind::Datum { .. } => Node::Datum { number, cloud },
            Kind::Service { .. } => Node::Service { number, cloud },
        }
    }
}

#[derive(Drop)]
pub struct Sheet {
    bytes: ArrayVec<u8, SHEET_BYTES>,
}

impl Model for Sheet {
    ghost Value = { List ℕ };

    ghost view = { λ s. s.bytes.items };
}

impl Sheet {
    pub fn new() -> Sheet
        ensures { result ≡ [] }
    {
        Sheet {
            bytes: ArrayVec::new(),
        }
    }

    pub fn as_slice(&self) -> &[u8]
        ensures { result.now ≡ self.now }
    {
        self.bytes.as_slice()
    }

    pub fn put_text(&mut self, text: &[u8])
        requires { length self.old + length text.now ≤ sheet_bytes }
        ensures { self.new ≡ self.old ++ text.now }
    {
        self.bytes.try_extend_from_slice(text).unwrap();
    }

    fn put_byte(&mut self, byte: u8)
        requires { length self.old < sheet_bytes }
        ensures { self.new ≡ self.old ++ byte ∷ [] }
    {
        self.bytes.push(byte);
    }

    // A number of one digit or two, as nearly all are.
    #[tactic(auto, using(list_text::proofs::Decimals::small))]
    fn put_tens(&mut self, n: u8)
        requires few { n < 100 }
        requires room { length self.old + length (decimal n) ≤ sheet_bytes }
        ensures { self.new ≡ self.old ++ decimal n }
    {
        if n < 10 {
            self.put_byte(b'0' + n);
            return;
        }
        self.put_byte(b'0' + n / 10 % 10);
        self.put_byte(b'0' + n % 10);
    }

    fn put_number(&mut self, n: u8)
        requires { length self.old + length (decimal n) ≤ sheet_bytes }
        ensures { self.new ≡ self.old ++ decimal n }
    {
        if n < 100 {
            self.put_tens(n);
            return;
        }
        self.put_tens(n / 10);
        self.put_byte(b'0' + n % 10);
    }

    fn put_block(&mut self, letter: u8, number: u8, cloud: u8)
        requires { length self.old + length (node (letter ∷ []) number cloud) ≤ sheet_bytes }
        ensures { self.new ≡ self.old ++ node (letter ∷ []) number cloud }
    {
        self.put_byte(letter);
        self.put_number(number);
        self.put_byte(b'_');
        self.put_number(cloud);
    }

    fn put_node(&mut self, node: Node)
        requires { length self.old + length (node_text node) ≤ sheet_bytes }
        ensures { self.new ≡ self.old ++ node_text node }
    {
        match node {
            Node::Datum { number, cloud } => self.put_block(b'd', number, cloud),
            Node::Service { number, cloud } => self.put_block(b's', number, cloud),
            Node::Transfer { edge } => {
                self.put_byte(b'x');
                self.put_number(edge);
            }
            Node::Copy { datum, cloud, edge } => {
                self.put_block(b'd', datum, cloud);
                self.put_text(b"_e");
                self.put_number(edge);
            }
        }
    }

    // A line of its own for a path: where it starts, and the nodes that follow, each after an arrow.
    pub fn put_line(&mut self, start: Node, next: &[Node])
        requires { length self.old + length (line (path_text start next.now)) ≤ sheet_bytes }
        ensures { self.new ≡ self.old ++ line (path_text start next.now) }
    {
        self.put_text(b"  ");
        self.put_node(start);
        for node in next {
            self.put_text(b" -> ");
            self.put_node(*node);
        }
        self.put_text(b";\n");
    }
}
