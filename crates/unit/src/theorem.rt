// What holds of every unit, as one theorem.
ghost use Rattle.source.specs.Runs.{Document, Sound};
ghost use Rattle.position.specs.declared.position.Position.{Position};
ghost use Rattle.unit.specs.Stops.{Stops};
ghost use Rattle.unit.specs.Laws.{Singles};

// A unit's stops leave each of its moves one answer.
pub fn moves_are_single()
    ensures { (d : Document) (u : Stops) (p : Position) → Singles d u p }
{}
