// What holds of every source's positions, as one theorem.
ghost use Rattle.source.specs.Runs.{Document, Sound};
ghost use Rattle.position.specs.Laws.{Laws};

// Places and positions answer one another, and each call's contract leaves it one answer.
pub fn positions_stand()
    ensures { (d : Document) → Sound d → Laws d }
{}
