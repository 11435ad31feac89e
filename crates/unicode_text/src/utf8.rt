// The UTF-8 check: a text is accepted exactly when it is well-formed by the Unicode Standard,
// Table 3-7, and is then the encodings of its scalars, one behind the other.
ghost use Rattle.std.specs.Prelude.{◌≡◌, ℕ, true, List, ◌↔◌, IsTrue};
ghost use Rattle.unicode_text.specs.States.{next, ends};
ghost use Rattle.unicode_text.specs.Table.{WellFormed};
ghost use Rattle.unicode_text.specs.Scalars.{Spells};
ghost use Rattle.unicode_text.specs.Scalars.{scalars as scalars_of};

// What may follow: the start of a sequence, so many trailing bytes, or a second byte that the table
// narrows after E0, ED, F0 and F4.
#[derive(Clone, Copy)]
enum State {
    Start,
    One,
    Two,
    Three,
    AfterE0,
    AfterED,
    AfterF0,
    AfterF4,
    Bad,
}

#[derive(Clone, Copy)]
struct Utf8Check {
    state: State,
}

impl Utf8Check {
    fn new() -> Utf8Check
        ensures { result.state ≡ State.Start }
    {
        Utf8Check {
            state: State::Start,
        }
    }

    // The state after one byte more.
    fn after(&self, byte: u8) -> State
        ensures { result ≡ next self.now.state byte }
    {
        match (self.state, byte) {
            (State::Start, 0x00..=0x7F) => State::Start,
            (State::Start, 0xC2..=0xDF) => State::One,
            (State::Start, 0xE0) => State::AfterE0,
            (State::Start, 0xE1..=0xEC) => State::Two,
            (State::Start, 0xED) => State::AfterED,
            (State::Start, 0xEE..=0xEF) => State::Two,
            (State::Start, 0xF0) => State::AfterF0,
            (State::Start, 0xF1..=0xF3) => State::Three,
            (State::Start, 0xF4) => State::AfterF4,
            (State::One, 0x80..=0xBF) => State::Start,
            (State::Two, 0x80..=0xBF) => State::One,
            (State::Three, 0x80..=0xBF) => State::Two,
            (State::AfterE0, 0xA0..=0xBF) => State::One,
            (State::AfterED, 0x80..=0x9F) => State::One,
            (State::AfterF0, 0x90..=0xBF) => State::Two,
            (State::AfterF4, 0x80..=0x8F) => State::Two,
            _ => State::Bad,
        }
    }

    fn step(&mut self, byte: u8)
        ensures { self.new.state ≡ next self.old.state byte }
    {
        self.state = self.after(byte);
    }

    // Whether the text may end here.
    fn is_complete(&self) -> bool
        ensures { result ≡ ends self.now.state }
    {
        matches!(self.state, State::Start)
    }
}

// Whether the text is well-formed UTF-8.
pub fn is_utf8(text: &[u8]) -> bool
    ensures table { IsTrue result ↔ WellFormed text.now }
    ensures spelt { result ≡ true → Spells (scalars_of text.now) text.now }
    ensures only { (cs : List ℕ) → Spells cs text.now → (result ≡ true) × (cs ≡ scalars_of text.now) }
{
    let mut check = Utf8Check::new();
    for byte in text {
        check.step(*byte);
    }
    check.is_complete()
}
