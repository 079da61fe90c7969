ghost use Rattle.std.specs.Prelude.{◌≡◌, ◌++◌, ◌∷◌, [], List, OnOk};
ghost use Rattle.meaning.specs.declared.world.World.{World as a_world};
ghost use Rattle.meaning.specs.World.{sounding};
ghost use Rattle.session.specs.Observing.{ComesNext};

use meaning::World;
use wa_base::NoMemory;

/// Looks on while a session is replayed.
pub trait Observer {
    /// Whether these are the worlds that it was shown, as they sound.
    ghost saw: { Self → List a_world → Type 0 };

    /// Is shown the world in force in the quantum that comes next, and told whether it comes again: then
    /// no call came and no source ended since the quantum before, and it sounds as it did there. Where
    /// there is no memory for it, the session stops.
    fn show(&mut self, world: &World, again: bool) -> Result<(), NoMemory>
        requires { (worlds : List a_world) × saw self.old worlds × ComesNext again worlds world.now }
        ensures { OnOk result ((worlds : List a_world) → saw self.old worlds → saw self.new (worlds ++ sounding world.now ∷ [])) };
}

/// Looks at nothing.
#[derive(Clone, Copy)]
pub struct NoObserver;

impl Observer for NoObserver {
    ghost use Rattle.std.specs.Prelude.{};

    ghost saw = { λ observer worlds. Unit {0} };

    fn show(&mut self, _: &World, _: bool) -> Result<(), NoMemory> {
        Ok(())
    }
}
