// Whether a position, as it stands, is where the document, a line, a paragraph or a word starts or
// ends.
ghost use Rattle.std.specs.Prelude.{◌≡◌, Bool, true};
ghost use Rattle.position.specs.Places.{Lawful, Answers};
ghost use Rattle.starts.specs.Starts.{joins, breaks, opens_line, opens_paragraph, run_end, starts_document, ends_document, starts_line, ends_line, starts_paragraph, ends_paragraph, starts_word};

use position::bias::biased_to_start;
use position::position::Position;
use rows::node::NodeId;
use rows::refusal::Refusal;
use source::source::Source;

// Whether the run is joined on its line to the next one.
pub fn joins<S: Source>(s: &S, row: NodeId) -> bool
    ensures { result ≡ joins (S.Source.doc s.now).runs row.0 }
{
    s.is_joined(row).unwrap_or(false)
}

// Whether the run has the break mark.
fn breaks<S: Source>(s: &S, row: NodeId) -> bool
    ensures { result ≡ breaks (S.Source.doc s.now).runs row.0 }
{
    s.has_break(row).unwrap_or(false)
}

// Whether no run before it is joined to this run.
pub fn opens_line<S: Source>(s: &S, row: NodeId) -> bool
    ensures { result ≡ opens_line (S.Source.doc s.now).runs row.0 }
{
    s.previous(row).is_none_or(|before| !joins(s, before))
}

// Whether the run opens a line and the run before it has the break mark; the first run does too.
pub fn opens_paragraph<S: Source>(s: &S, row: NodeId) -> bool
    ensures { result ≡ opens_paragraph (S.Source.doc s.now).runs row.0 }
{
    s.previous(row)
        .is_none_or(|before| !joins(s, before) && breaks(s, before))
}

fn at_run_end<S: Source>(s: &S, p: Position) -> bool
    ensures { result ≡ run_end (S.Source.doc s.now) p }
{
    s.character_count(p.row) == Some(p.index)
}

// The judgements of a position that is already known to be one.
pub fn starts_paragraph<S: Source>(s: &S, p: Position) -> bool
    ensures { result ≡ starts_paragraph (S.Source.doc s.now) p }
{
    p.index == 0 && opens_paragraph(s, p.row)
}

pub fn ends_document<S: Source>(s: &S, p: Position) -> bool
    ensures { result ≡ ends_document (S.Source.doc s.now) p }
{
    at_run_end(s, p) && s.next(p.row).is_none()
}

fn ends_line<S: Source>(s: &S, p: Position) -> bool
    ensures { result ≡ ends_line (S.Source.doc s.now) p }
{
    at_run_end(s, p) && !joins(s, p.row)
}

pub fn ends_paragraph<S: Source>(s: &S, p: Position) -> bool
    ensures { result ≡ ends_paragraph (S.Source.doc s.now) p }
{
    ends_document(s, p) || ends_line(s, p) && breaks(s, p.row)
}

pub fn is_document_start<S: Source>(s: &S, p: Position) -> Result<bool, Refusal>
    ensures { Answers (Lawful (S.Source.doc s.now) p) (λ b. b ≡ starts_document (S.Source.doc s.now) p) result }
{
    let _ = biased_to_start(s, p)?;
    Ok(p.index == 0 && s.previous(p.row).is_none())
}

pub fn is_document_end<S: Source>(s: &S, p: Position) -> Result<bool, Refusal>
    ensures { Answers (Lawful (S.Source.doc s.now) p) (λ b. b ≡ ends_document (S.Source.doc s.now) p) result }
{
    let _ = biased_to_start(s, p)?;
    Ok(ends_document(s, p))
}

pub fn is_line_start<S: Source>(s: &S, p: Position) -> Result<bool, Refusal>
    ensures { Answers (Lawful (S.Source.doc s.now) p) (λ b. b ≡ starts_line (S.Source.doc s.now) p) result }
{
    let _ = biased_to_start(s, p)?;
    Ok(p.index == 0 && opens_line(s, p.row))
}

pub fn is_line_end<S: Source>(s: &S, p: Position) -> Result<bool, Refusal>
    ensures { Answers (Lawful (S.Source.doc s.now) p) (λ b. b ≡ ends_line (S.Source.doc s.now) p) result }
{
    let _ = biased_to_start(s, p)?;
    Ok(ends_line(s, p))
}

pub fn is_paragraph_start<S: Source>(s: &S, p: Position) -> Result<bool, Refusal>
    ensures { Answers (Lawful (S.Source.doc s.now) p) (λ b. b ≡ starts_paragraph (S.Source.doc s.now) p) result }
{
    let _ = biased_to_start(s, p)?;
    Ok(starts_paragraph(s, p))
}

pub fn is_paragraph_end<S: Source>(s: &S, p: Position) -> Result<bool, Refusal>
    ensures { Answers (Lawful (S.Source.doc s.now) p) (λ b. b ≡ ends_paragraph (S.Source.doc s.now) p) result }
{
    let _ = biased_to_start(s, p)?;
    Ok(ends_paragraph(s, p))
}

// A word start of the run at the index, or a paragraph start.
pub fn is_word_start<S: Source>(s: &S, p: Position) -> Result<bool, Refusal>
    ensures { Answers (Lawful (S.Source.doc s.now) p) (λ b. b ≡ starts_word (S.Source.doc s.now) p) result }
{
    let _ = biased_to_start(s, p)?;
    Ok(starts_paragraph(s, p) || s.word_start_from(p.row, p.index) == Some(p.index))
}
