// The lines of standard input, one at a time, each read into one buffer. A line can be handed back, to be read
// again.
ghost use Rattle.std.specs.Prelude.{◌≡◌, ◌+◌, ◌<◌, ◌≤◌, true, IfOk, IfErr, OnOk};
ghost use Rattle.std.specs.IoError.{error_kind};
ghost use Rattle.panel.specs.Lines.{lines_left};

use std::alloc::Global;
use std::io::{self, BufRead, BufReader, ErrorKind, Stdin};

#[derive(Drop)]
pub struct Input {
    reader: BufReader<Stdin>,
    line: Vec<u8>,
    // the line in the buffer was handed back: an `Option` of a line would want a buffer for each
    kept: bool,
    // how often the reader may still be asked: nothing says that an input ends, and the loops over it must
    turns: u64,
}

impl Input {
    // Nothing is read yet; the one error is that there is no memory for the buffer.
    pub fn new(rt: &HostRuntime) -> io::Result<Input>
        ensures { IfErr result (λ e. error_kind e ≡ ErrorKind.OutOfMemory) }
    {
        let heap: Global = rt.alloc();
        Ok(Input {
            reader: BufReader::new(heap, rt.stdin())?,
            line: Vec::new(heap),
            kept: false,
            turns: u64::MAX,
        })
    }

    // Goes to the next line; false at an end of the input, behind which a terminal may have more.
    pub fn advance(&mut self) -> io::Result<bool>
        ensures goes { IfOk result (λ more. more ≡ true → lines_left self.new < lines_left self.old) }
        ensures ends { OnOk result (lines_left self.new ≤ lines_left self.old) }
    {
        if self.kept {
            self.kept = false;
            return Ok(true);
        }
        let Some(turns) = self.turns.checked_sub(1) else {
            return Ok(false);
        };
        self.turns = turns;
        self.line.clear();
        let count = self.reader.read_until(b'\n', &mut self.line)?;
        Ok(count > 0)
    }

    pub fn line(&self) -> &[u8] {
        self.line.as_slice()
    }

    // The line is read again by the next `advance`.
    pub fn keep(&mut self)
        ensures { lines_left self.new ≤ lines_left self.old + 1 }
    {
        self.kept = true;
    }
}
