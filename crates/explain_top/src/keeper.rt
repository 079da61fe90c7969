ghost use Rattle.std.specs.Prelude.{◌≡◌, ◌≤◌, ◌^◌, [], length, IfOk};
ghost use Rattle.derivations.specs.Tapes.{worlds};

use derivations::{Piece, Tape};
use meaning::World;
use session::Observer;
use std::alloc::Global;
use std::marker::Model;
use wa_base::NoMemory;

// Keeps the worlds that it is shown. Contracts see it as the list of their pieces.
#[derive(Drop)]
pub(crate) struct Keeper {
    tape: Tape,
    // the piece of the world that it was shown last; the tape has those before it
    last: Option<Piece>,
}

impl Model for Keeper {
    ghost use Rattle.std.specs.Prelude.{◌<◌, ◌++◌, List, option_to_list, IfSome};
    ghost use Rattle.derivations.specs.declared.tape.Piece.{Piece};

    ghost Value = { List Piece };

    ghost view = { λ k. k.tape ++ option_to_list k.last };

    ghost invariant = { λ k. IfSome k.last (λ piece. 0 < piece.quanta) };
}

impl Keeper {
    // It takes no memory until it is shown a world.
    pub(crate) fn new(alloc: Global) -> Keeper
        ensures { result ≡ [] }
    {
        Keeper {
            tape: Tape::new(alloc),
            last: None,
        }
    }

    // The worlds that it was shown.
    pub(crate) fn into_tape(self) -> Result<Tape, NoMemory>
        requires { length (worlds self) ≤ 2 ^ 62 }
        ensures { IfOk result (λ tape. tape ≡ self) }
    {
        let Keeper { mut tape, last } = self;
        if let Some(piece) = last {
            tape.push(piece)?;
        }
        Ok(tape)
    }
}

impl Observer for Keeper {
    ghost use Rattle.std.specs.Prelude.{◌≡◌, map};
    ghost use Rattle.meaning.specs.World.{sounding};
    ghost use Rattle.derivations.specs.Tapes.{worlds};

    ghost saw = { λ pieces shown. map sounding (worlds pieces) ≡ shown };

    fn show(&mut self, world: &World, again: bool) -> Result<(), NoMemory> {
        if again && let Some(piece) = &mut self.last {
            piece.quanta += 1;
            return Ok(());
        }
        let next = Piece {
            world: world.copy()?,
            quanta: 1,
        };
        if let Some(piece) = self.last.replace(next) {
            self.tape.push(piece)?;
        }
        Ok(())
    }
}
