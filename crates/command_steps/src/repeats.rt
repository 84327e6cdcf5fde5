// What may not be declared again: the same edge, a second writer, the same pair.
ghost use Rattle.std.specs.Prelude.{◌≡◌};
ghost use Rattle.sequences.specs.Lists.{any};
ghost use Rattle.decoding.specs.Format.{clash, named_by, same_pair};

use description::workflow::{Description, Edge, Pair};

// The edge e can't be declared after f: it repeats f, or is a second writer of its datum.
fn clashes(e: Edge, f: Edge) -> bool
    ensures { result ≡ clash e f }
{
    if e.datum != f.datum {
        return false;
    }
    if e.way.is_write() {
        return f.way.is_write();
    }
    if f.way.is_write() {
        return false;
    }
    e.service == f.service
}

pub fn clashes_with_any(w: &Description, e: Edge) -> bool
    ensures { result ≡ any (clash e) w.now.edges }
{
    w.edges().iter().any(|f| clashes(e, *f))
}

// The pair has the data x and y, in this order.
fn named_by(a: Pair, x: u8, y: u8) -> bool
    ensures { result ≡ named_by a x y }
{
    (x, y) == (a.left, a.right)
}

// Two pairs have the same data, in either order.
fn same_pair(a: Pair, b: Pair) -> bool
    ensures { result ≡ same_pair a b }
{
    if named_by(b, a.left, a.right) {
        return true;
    }
    named_by(b, a.right, a.left)
}

pub fn repeats_any(w: &Description, a: Pair) -> bool
    ensures { result ≡ any (same_pair a) w.now.pairs }
{
    w.pairs().iter().any(|b| same_pair(a, *b))
}
