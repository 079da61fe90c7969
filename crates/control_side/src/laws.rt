ghost use Rattle.control_side.specs.Laws.{EndedLaw};

/// The sources that end in a render quantum have their lines in order of node number.
pub fn ended_law()
    ensures { EndedLaw }
{}
