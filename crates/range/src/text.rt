// The text of a range: from its start's run on to its end's, each run's bytes straight behind those
// of the run before.
ghost use Rattle.std.specs.Prelude.{◌≡◌, ◌≤◌, ◌++◌, length, drop, IfSome, option_map};
ghost use Rattle.source.specs.Pieces.{Stripped};
ghost use Rattle.position.specs.Places.{Answers};
ghost use Rattle.range.specs.Ranges.{Both};
ghost use Rattle.range.specs.Texts.{Texts, bytes_in};
ghost use Rattle.range.specs.Walks.{Walked, Same, Heads, Tails, Needs, behind_in, walked_prop};

use crate::range::Range;
use position::order::compare;
use position::position::Position;
use rows::refusal::Refusal;
use source::source::Source;
use std::alloc::AllocError;
use std::cmp::Ordering;

// The run writer: the bytes go to the front of what it is lent.
fn put(out: &mut [u8], bytes: &[u8])
    requires { length bytes.now ≤ length out.old }
    ensures { out.new ≡ bytes.now ++ drop (length bytes.now) out.old }
{
    let n = bytes.len();
    out[..n].copy_from_slice(bytes);
}

// A range on its way from run to run: its start's run is its end's, or stands before it.
struct Walk<'b, S: Source> {
    source: &'b S,
    range: Range,
    strip: &'b [u8],
    ghost walked: { Walked (S.Source.doc source.now) range } by { walked_prop (S.Source.doc source.now) range },
}

// A derive would ask that the source can be copied.
impl<S: Source> Clone for Walk<'_, S> {
    fn clone(&self) -> Result<Self, AllocError> {
        Ok(*self)
    }
}

impl<S: Source> Copy for Walk<'_, S> {}

impl<'b, S: Source> Walk<'b, S> {
    // The index behind the last of the range's characters that stand in its start's run.
    fn behind(&self) -> usize
        ensures { result ≡ behind_in (S.Source.doc self.now.source.now) self.now.range }
    {
        let Range { start, end } = self.range;
        if start.row == end.row {
            end.index
        } else {
            self.source.character_count(start.row).unwrap_or(0)
        }
    }

    // The bytes of those characters.
    fn head(&self) -> Result<&'b [u8], Refusal>
        ensures { Heads (S.Source.doc self.now.source.now) self.now.range self.now.strip.now result }
    {
        let start = self.range.start;
        self.source
            .piece(start.row, start.index, self.behind(), self.strip)
    }

    // The rest of the range behind that run.
    fn tail(&self) -> Option<Walk<'b, S>>
        ensures same { IfSome result (λ w. (w.source ≡ self.now.source) × (w.strip ≡ self.now.strip)) }
        ensures rest { Tails (S.Source.doc self.now.source.now) self.now.range (option_map (λ w. w.range) result) }
    {
        let Range { start, end } = self.range;
        if start.row == end.row {
            return None;
        }
        let row = self.source.next(start.row)?;
        let start = Position {
            row,
            index: 0,
            ..start
        };
        Some(Walk {
            source: self.source,
            range: Range { start, end },
            strip: self.strip,
        })
    }

    // How many bytes the range's characters have.
    fn needed(self) -> Result<usize, Refusal>
        ensures { Needs (S.Source.doc self.entry.source.now) self.entry.range self.entry.strip.now result }
    {
        let mut rest = self;
        let mut sum: usize = 0;
        loop {
            sum += rest.head()?.len();
            match rest.tail() {
                Some(next) => rest = next,
                None => return Ok(sum),
            }
        }
    }

    // Writes the text into a buffer that has room for it.
    fn write(self, buffer: &mut [u8]) -> usize
        requires stripped { Stripped (S.Source.doc self.source.now) self.strip.now }
        requires room { length (bytes_in (S.Source.doc self.source.now) self.range) ≤ length buffer.old }
        ensures { (result ≡ length (bytes_in (S.Source.doc self.entry.source.now) self.entry.range)) × (buffer.new ≡ bytes_in (S.Source.doc self.entry.source.now) self.entry.range ++ drop result buffer.old) }
    {
        let mut rest = self;
        let mut at: usize = 0;
        loop {
            let Ok(piece) = rest.head() else {
                return at;
            };
            put(&mut buffer[at..], piece);
            at += piece.len();
            match rest.tail() {
                Some(next) => rest = next,
                None => return at,
            }
        }
    }
}

// The range to walk: one whose start is not before its end has no text, wherever its end's run is.
fn in_order<S: Source>(s: &S, t: Range) -> Result<Range, Refusal>
    ensures { Answers (Both (S.Source.doc s.now) t) (Same (S.Source.doc s.now) t) result }
{
    match compare(s, t.start, t.end)? {
        Ordering::Less => Ok(t),
        _ => Ok(Range {
            start: t.start,
            end: t.start,
        }),
    }
}

// Writes the characters not before the range's start and before its end. What is needed is counted
// first, so that a refused call leaves the buffer as it was. The caller lends it, as nothing is allocated here.
pub fn text<S: Source>(
    s: &S,
    range: Range,
    strip: &[u8],
    buffer: &mut [u8],
) -> Result<usize, Refusal>
    ensures { Texts (S.Source.doc s.now) range strip.now buffer.old result buffer.new }
{
    let walk = Walk {
        source: s,
        range: in_order(s, range)?,
        strip,
    };
    let need = walk.needed()?;
    if buffer.len() < need {
        return Err(Refusal::Needed(need));
    }
    Ok(walk.write(buffer))
}
