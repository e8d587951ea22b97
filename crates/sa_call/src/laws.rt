ghost use Rattle.sa_call.specs.Laws.{PartsDecide};

/// What comes of a call by the lists that it read is what comes of it by descriptor: its clause is the
/// law.
pub fn parts_decide()
    ensures { PartsDecide }
{}
