ghost use Rattle.std.specs.Prelude.{◌≡◌, ◌+◌, ◌≤◌, ◌^◌, ◌∷◌, ◌++◌, [], length, slice_get, Some, IfSome, IfNone, OnOk, OnErr, option_copied};
ghost use Rattle.derivations.specs.Tapes.{worlds};
ghost use Rattle.derivations.specs.Stretches.{IsInForce};

use crate::marks::{Marks, marks_of};
use meaning::World;
use std::alloc::Global;
use std::marker::{Brand, Model};
use std::sync::ledger::Blank;
use wa_base::NoMemory;

/// A world, and for how many quanta it is in force.
#[derive(Drop)]
pub struct Piece {
    pub world: World,
    pub quanta: u64,
}

/// A piece with the number of quanta up to its end, and what the graph of its world says.
#[derive(Drop)]
pub struct Stretch {
    pub piece: Piece,
    pub end: u64,
    pub marks: Marks,
}

/// The worlds of a session, one after the other. Contracts see it as the list of its pieces.
#[derive(Drop)]
pub struct Tape {
    stretches: Vec<Stretch>,
    quanta: u64,
}

impl Model for Tape {
    ghost use Rattle.std.specs.Prelude.{List, map, ◌≤◌, ◌^◌};
    ghost use Rattle.derivations.specs.declared.tape.Piece.{Piece};

    ghost Value = { List Piece };

    ghost use Rattle.derivations.specs.Stretches.{pieces_of, AreStretches};

    ghost view = { λ t. pieces_of t.stretches.items };

    ghost invariant = { λ t. AreStretches 0 t.stretches.items t.quanta × (t.quanta ≤ 2 ^ 62) };
}

impl Tape {
    /// A tape without quanta. It takes no memory until it grows.
    pub fn new(alloc: Global) -> Tape
        ensures { result ≡ [] }
    {
        Tape {
            stretches: Vec::new(alloc),
            quanta: 0,
        }
    }

    /// Appends a piece. After `NoMemory` the tape is as before, and the piece is dropped.
    pub fn push(&mut self, piece: Piece) -> Result<(), NoMemory>
        requires { length (worlds self.old) + piece.quanta ≤ 2 ^ 62 }
        ensures ok { OnOk result (self.new ≡ self.old ++ piece ∷ []) }
        ensures err { OnErr result (self.new ≡ self.old) }
    {
        let alloc = *self.stretches.allocator();
        let marks = marks_of::<Brand>(alloc, &piece.world.graph, Blank::new(1))?;
        let end = self.quanta + piece.quanta;
        self.stretches.push(Stretch { piece, end, marks })?;
        self.quanta = end;
        Ok(())
    }

    /// The number of its quanta.
    pub fn quanta(&self) -> u64
        ensures number { result ≡ length (worlds self.now) }
        ensures few { result ≤ 2 ^ 62 }
    {
        self.quanta
    }

    /// The world that is in force in a quantum of the tape, by a search that halves the pieces at each
    /// step. A quantum past its end has none.
    pub fn world(&self, quantum: u64) -> Option<&World>
        ensures { option_copied result ≡ slice_get (worlds self.now) quantum }
    {
        match self.at(quantum) {
            Some(stretch) => Some(&stretch.piece.world),
            None => None,
        }
    }

    // The piece that is in force in a quantum.
    pub(crate) fn at(&self, quantum: u64) -> Option<&Stretch>
        ensures found { IfSome result (λ stretch. IsInForce (worlds self.now) quantum stretch.now) }
        ensures past { IfNone result (length (worlds self.now) ≤ quantum) }
        ensures few { length (worlds self.now) ≤ 2 ^ 62 }
    {
        let place = self.stretches.partition_point(|s| s.end <= quantum);
        if place < self.stretches.len() {
            Some(&self.stretches[place])
        } else {
            None
        }
    }
}
