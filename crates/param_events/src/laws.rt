ghost use Rattle.std.specs.Prelude.{◌≡◌, ℕ, ℤ, []};
ghost use Rattle.param_events.specs.Values.{value_at};

/// Without events the intrinsic value is the base at every frame.
#[tactic(auto, unfolding(crate::specs::Values::value_at))]
pub fn base_is_held()
    ensures { (base : ℤ) (frame : ℕ) → value_at base [] frame ≡ base }
{}
