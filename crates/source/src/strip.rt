// The caller's strip of bullets, and parts of it or of a text.
ghost use Rattle.std.specs.Prelude.{◌≡◌, if◌then◌else◌, ◌↔◌, IsTrue};
ghost use Rattle.source.specs.Pieces.{full_strip};
ghost use Rattle.source.specs.Strips.{PartOf};

// The bullet, U+2022, in UTF-8.
pub(crate) const BULLET: [u8; 3] = [0xE2, 0x80, 0xA2];

// The strip: as many bullets as a run may have characters.
const STRIP: [[u8; 3]; 255] = [BULLET; 255];

pub(crate) const STRIP_LENGTH: usize = STRIP.len() * BULLET.len();

// Whether the bytes are 255 bullets, no more and no fewer.
pub fn is_strip(strip: &[u8]) -> bool
    ensures { IsTrue result ↔ (strip.now ≡ full_strip) }
{
    strip == STRIP.as_flattened()
}

// A part of the strip when masked, else of the text; nothing where there is no such part. By
// docs/DECISIONS.md it is one function over two lent slices, by the flag.
pub fn part<'b>(
    text: &'b [u8],
    strip: &'b [u8],
    masked: bool,
    from: usize,
    to: usize,
) -> Option<&'b [u8]>
    ensures { PartOf (if masked then strip.now else text.now) from to result }
{
    let whole = if masked { strip } else { text };
    whole.get(from..to)
}
