// A reader holds a source and a range of it, and reads on from the range or back from it.
ghost use Rattle.std.specs.Prelude.{◌≡◌};
ghost use Rattle.range.specs.Texts.{Texts};
ghost use Rattle.reader.specs.Steps.{Step, read_on, read_back, set_start, set_end, replied, acknowledged, fresh, turned};
ghost use Rattle.reader.specs.Laws.{Reads};

use position::bias::{biased_to_start, document_start};
use position::position::Position;
use range::range::Range;
use range::text::text;
use rows::refusal::Refusal;
use source::source::Source;
use unit::unit::Unit;

// The strip and the buffer are lent for each call alone, one shared and one to write in: a struct of both
// would be made for a call and taken apart in it.
#[derive(Drop)]
pub struct Reader<S> {
    source: S,
    range: Range,
}

impl<S: Source> Reader<S> {
    // A reader whose range is empty, at the document's start; `reads` is what holds of it from then on.
    pub fn open(source: S) -> Reader<S>
        ensures source { result.source ≡ source }
        ensures range { result.range ≡ fresh (S.Source.doc source) }
        ensures reads { Reads (S.Source.doc source) }
    {
        let start = document_start(&source);
        Reader {
            source,
            range: Range { start, end: start },
        }
    }

    // Writes the text of another range, which then becomes the reader's.
    fn turn_to(&mut self, range: Range, strip: &[u8], buffer: &mut [u8]) -> Result<usize, Refusal>
        ensures kept { self.new.source ≡ self.old.source }
        ensures text { Texts (S.Source.doc self.old.source) range strip.now buffer.old result buffer.new }
        ensures turns { self.new.range ≡ turned self.old.range range result }
    {
        let n = text(&self.source, range, strip, buffer)?;
        self.range = range;
        Ok(n)
    }

    // The range becomes the unit's stretch behind its end, and its text is written.
    pub fn read_on<U: Unit<S>>(
        &mut self,
        unit: &U,
        strip: &[u8],
        buffer: &mut [u8],
    ) -> Result<usize, Refusal>
        ensures kept { self.new.source ≡ self.old.source }
        ensures step { Step (S.Source.doc self.old.source) self.old.range (read_on (U.Unit.stops unit.now (S.Source.doc self.old.source)) strip.now buffer.old) (replied buffer.new result) self.new.range }
    {
        let start = biased_to_start(&self.source, self.range.end)?;
        let end = unit.forward(&self.source, start)?;
        self.turn_to(Range { start, end }, strip, buffer)
    }

    // The range becomes the unit's stretch before its start, and its text is written.
    pub fn read_back<U: Unit<S>>(
        &mut self,
        unit: &U,
        strip: &[u8],
        buffer: &mut [u8],
    ) -> Result<usize, Refusal>
        ensures kept { self.new.source ≡ self.old.source }
        ensures step { Step (S.Source.doc self.old.source) self.old.range (read_back (U.Unit.stops unit.now (S.Source.doc self.old.source)) strip.now buffer.old) (replied buffer.new result) self.new.range }
    {
        let end = biased_to_start(&self.source, self.range.start)?;
        let start = unit.backward(&self.source, end)?;
        self.turn_to(Range { start, end }, strip, buffer)
    }

    // Moves the start, and the end along where the start is not before it.
    pub fn set_start(&mut self, p: Position) -> Result<(), Refusal>
        ensures kept { self.new.source ≡ self.old.source }
        ensures step { Step (S.Source.doc self.old.source) self.old.range (set_start p) (acknowledged result) self.new.range }
    {
        self.range = self.range.with_start(&self.source, p)?;
        Ok(())
    }

    // Moves the end, and the start along where it is not before the end.
    pub fn set_end(&mut self, p: Position) -> Result<(), Refusal>
        ensures kept { self.new.source ≡ self.old.source }
        ensures step { Step (S.Source.doc self.old.source) self.old.range (set_end p) (acknowledged result) self.new.range }
    {
        self.range = self.range.with_end(&self.source, p)?;
        Ok(())
    }

    // Writes the range's text.
    pub fn text(&self, strip: &[u8], buffer: &mut [u8]) -> Result<usize, Refusal>
        ensures { Texts (S.Source.doc self.now.source) self.now.range strip.now buffer.old result buffer.new }
    {
        text(&self.source, self.range, strip, buffer)
    }

    pub fn range(&self) -> Range
        ensures { result ≡ self.now.range }
    {
        let Reader { range, .. } = self;
        *range
    }

    // Answers the range and uses the reader up.
    pub fn close(self) -> Range
    where
        S: Drop,
        ensures { result ≡ self.range }
    {
        self.range()
    }
}
