// What holds of every range, as one theorem.
ghost use Rattle.source.specs.Runs.{Document};
ghost use Rattle.range.specs.Laws.{Singles};

// Each call's contract leaves it one answer, and one buffer or range behind it.
pub fn ranges_are_single()
    ensures { (d : Document) → Singles d }
{}
