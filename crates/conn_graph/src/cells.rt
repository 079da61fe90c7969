ghost use Rattle.std.specs.Prelude.{◌≡◌, ◌<◌, ◌^◌, ℕ};
ghost use Rattle.slab.specs.Slab.{get, slab_len};
ghost use Rattle.conn_graph.specs.Lists as spec;

use crate::edges::{Edge, Ports};
use slab::Slab;

/// Which of the two lists of a cell is meant: that of its source, or that of its target.
#[derive(Clone, Copy)]
pub(crate) enum Side {
    Out,
    In,
}

/// The cells before and behind a cell in one of its lists.
#[derive(Clone, Copy)]
pub(crate) struct Links {
    pub(crate) before: Option<usize>,
    pub(crate) behind: Option<usize>,
}

/// A connection, with its places in the list of its source and in that of its target.
#[derive(Clone, Copy)]
pub(crate) struct Cell {
    pub(crate) edge: Edge,
    pub(crate) out: Links,
    pub(crate) into: Links,
}

/// The first and the last cell of a list, and how many it has.
#[derive(Clone, Copy)]
pub(crate) struct Ends {
    pub(crate) first: Option<usize>,
    pub(crate) last: Option<usize>,
    pub(crate) count: usize,
}

/// A node, with the list of the connections from it and the list of those to it.
#[derive(Clone, Copy)]
pub(crate) struct Node {
    pub(crate) ports: Ports,
    pub(crate) out: Ends,
    pub(crate) into: Ends,
}

impl Cell {
    pub(crate) fn links(self, side: Side) -> Links
        ensures { result ≡ spec.links_of side self }
    {
        match side {
            Side::Out => self.out,
            Side::In => self.into,
        }
    }

    fn with_links(self, side: Side, links: Links) -> Cell
        ensures { result ≡ spec.with_links side links self }
    {
        match side {
            Side::Out => Cell { out: links, ..self },
            Side::In => Cell {
                into: links,
                ..self
            },
        }
    }

    fn with_before(self, side: Side, before: Option<usize>) -> Cell
        ensures { result ≡ spec.with_before side before self }
    {
        let behind = self.links(side).behind;
        self.with_links(side, Links { before, behind })
    }

    fn with_behind(self, side: Side, behind: Option<usize>) -> Cell
        ensures { result ≡ spec.with_behind side behind self }
    {
        let before = self.links(side).before;
        self.with_links(side, Links { before, behind })
    }
}

impl Node {
    // A node without connections.
    pub(crate) fn new(ports: Ports) -> Node
        ensures { result ≡ spec.node_of ports }
    {
        let none = Ends {
            first: None,
            last: None,
            count: 0,
        };
        Node {
            ports,
            out: none,
            into: none,
        }
    }

    pub(crate) fn ends(self, side: Side) -> Ends
        ensures { result ≡ spec.ends_of side self }
    {
        match side {
            Side::Out => self.out,
            Side::In => self.into,
        }
    }
}

impl Ends {
    // The links of a cell behind the last one.
    pub(crate) fn end(self) -> Links
        ensures { result ≡ spec.end_links self }
    {
        Links {
            before: self.last,
            behind: None,
        }
    }

    // The ends with one more cell at the end.
    pub(crate) fn longer(self, key: usize) -> Ends
        requires { self.count < 2 ^ 32 }
        ensures { result ≡ spec.longer self key }
    {
        Ends {
            first: self.first.or(Some(key)),
            last: Some(key),
            count: self.count + 1,
        }
    }

    // The ends without a cell that had these links.
    pub(crate) fn shorter(self, links: Links) -> Ends
        requires { 0 < self.count }
        ensures { result ≡ spec.shorter self links }
    {
        Ends {
            first: if links.before.is_some() {
                self.first
            } else {
                links.behind
            },
            last: if links.behind.is_some() {
                self.last
            } else {
                links.before
            },
            count: self.count - 1,
        }
    }
}

// Lets a cell, if one is named, lead on to another.
pub(crate) fn set_behind(
    cells: &mut Slab<Cell>,
    side: Side,
    key: Option<usize>,
    behind: Option<usize>,
)
    ensures cells { (k : ℕ) → get cells.new k ≡ spec.changed (spec.with_behind side behind) key k (get cells.old k) }
    ensures held { slab_len cells.new ≡ slab_len cells.old }
{
    if let Some(key) = key {
        if let Some(cell) = cells.get_mut(key) {
            *cell = cell.with_behind(side, behind);
        }
    }
}

// Lets a cell, if one is named, lead back to another.
fn set_before(cells: &mut Slab<Cell>, side: Side, key: Option<usize>, before: Option<usize>)
    ensures cells { (k : ℕ) → get cells.new k ≡ spec.changed (spec.with_before side before) key k (get cells.old k) }
    ensures held { slab_len cells.new ≡ slab_len cells.old }
{
    if let Some(key) = key {
        if let Some(cell) = cells.get_mut(key) {
            *cell = cell.with_before(side, before);
        }
    }
}

// Lets the neighbours that a cell had on a side pass over it.
pub(crate) fn relink(cells: &mut Slab<Cell>, side: Side, links: Links)
    ensures cells { (k : ℕ) → get cells.new k ≡ spec.changed (spec.with_before side links.before) links.behind k (spec.changed (spec.with_behind side links.behind) links.before k (get cells.old k)) }
    ensures held { slab_len cells.new ≡ slab_len cells.old }
{
    set_behind(cells, side, links.before, links.behind);
    set_before(cells, side, links.behind, links.before);
}
