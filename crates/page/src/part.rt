// What the tables have of one run, and what is asked of it, as slices of bytes.
ghost use Rattle.std.specs.Prelude.{◌≡◌, ◌≤◌, length, sum, ◌↔◌, IsTrue};
ghost use Rattle.source.specs.Runs.{Rising, first_from, last_below};
ghost use Rattle.page.specs.Parts.{NoParts};
ghost use Rattle.page.specs.Texts.{part_of, cut, feeds, Fitting, AllAre};

use rows::node::Part;
use unicode_text::scalar::is_boundary;
use unicode_text::utf8::is_utf8;

#[derive(Clone, Copy)]
pub(crate) struct Parts<'a> {
    pub(crate) text: &'a [u8],
    // the bytes of each character
    pub(crate) lengths: &'a [u8],
    // the characters that words start at
    pub(crate) words: &'a [u8],
    // on its line to the next run
    pub(crate) joined: bool,
}

impl<'a> Parts<'a> {
    // Those of a run without characters.
    pub(crate) fn none() -> Parts<'a>
        ensures { NoParts result }
    {
        Parts {
            text: &[],
            lengths: &[],
            words: &[],
            joined: false,
        }
    }

    // Whether the last byte is a line feed.
    pub(crate) fn has_break(&self) -> bool
        ensures { result ≡ feeds self.now.text.now }
    {
        self.text.last() == Some(&0x0A)
    }

    // Whether the lengths make characters of the text.
    pub(crate) fn is_fitting(&self) -> bool
        ensures { IsTrue result ↔ Fitting self.now.text.now self.now.lengths.now }
    {
        if self.lengths.len() > 255 || !is_utf8(self.text) {
            return false;
        }
        let mut at: usize = 0;
        for n in self.lengths {
            if *n == 0 {
                return false;
            }
            at += usize::from(*n);
            if !is_boundary(self.text, at) {
                return false;
            }
        }
        at == self.text.len()
    }

    // Whether the word starts rise strictly below the character count.
    pub(crate) fn is_rising(&self) -> bool
        ensures { IsTrue result ↔ Rising 0 (length self.now.lengths.now) self.now.words.now }
    {
        let count = self.lengths.len();
        let mut low: usize = 0;
        for word in self.words {
            let start = usize::from(*word);
            if start < low || start >= count {
                return false;
            }
            low = start + 1;
        }
        true
    }

    // Whether each character that the lengths cut out of the text is this one.
    pub(crate) fn has_only(&self, character: &[u8]) -> bool
        requires { sum self.now.lengths.now ≤ length self.now.text.now }
        ensures { IsTrue result ↔ AllAre character.now (cut self.now.lengths.now self.now.text.now) }
    {
        let mut rest = self.text;
        for n in self.lengths {
            let (head, tail) = rest.split_at(usize::from(*n));
            if head != character {
                return false;
            }
            rest = tail;
        }
        true
    }
}

// The part of the table that lies in it.
pub(crate) fn part_of(table: &[u8], part: Part) -> &[u8]
    ensures { result.now ≡ part_of part table.now }
{
    let rest = table.get(usize::from(part.start)..).unwrap_or(&[]);
    &rest[..rest.len().min(usize::from(part.count))]
}

// The sum of the lengths.
pub(crate) fn total(lengths: &[u8]) -> usize
    requires { length lengths.now ≤ 65535 }
    ensures { result ≡ sum lengths.now }
{
    lengths.iter().map(|n| usize::from(*n)).sum()
}

// The first word start at an index or behind it.
pub(crate) fn first_from(words: &[u8], index: usize) -> Option<usize>
    ensures { result ≡ first_from index words.now }
{
    words
        .iter()
        .map(|word| usize::from(*word))
        .find(|start| *start >= index)
}

// The last word start before an index.
pub(crate) fn last_before(words: &[u8], index: usize) -> Option<usize>
    ensures { result ≡ last_below index words.now }
{
    words
        .iter()
        .rev()
        .map(|word| usize::from(*word))
        .find(|start| *start < index)
}
