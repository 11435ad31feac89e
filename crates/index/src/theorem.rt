// What holds of every index, as one theorem.
ghost use Rattle.source.specs.Runs.{Document, Sound};
ghost use Rattle.index.specs.Laws.{Singles};

// Each index call leaves one answer, and an index leads back to its place.
pub fn indexes_stand()
    ensures { (d : Document) → Sound d → Singles d }
{}
