// What holds of every move, as one theorem.
ghost use Rattle.source.specs.Runs.{Document, Sound};
ghost use Rattle.position.specs.declared.position.Position.{Position};
ghost use Rattle.moves.specs.Laws.{Singles};

// Each move leaves one answer.
pub fn moves_are_single()
    ensures { (d : Document) (p : Position) → Singles d p }
{}
