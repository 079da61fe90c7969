ghost use Rattle.session.specs.Tapes.{TapeLaw};

/// The worlds of the session of every script whose fields are in range are valid and follow one
/// another, and one that completed reaches the length of its context.
pub fn tape_law()
    ensures { TapeLaw }
{}
