// The caller's strip, which stands for the text of a masked page: at first 255 bullets.
use crate::command::{Command, unhex};
use crate::reply::{Answer, Reply};
use std::alloc::{AllocError, Global};

#[derive(Drop)]
pub struct Strip {
    bytes: Vec<u8>,
}

impl Strip {
    pub fn bullets(heap: Global) -> Result<Strip, AllocError> {
        Ok(Strip {
            bytes: "\u{2022}".repeat(heap, 255)?.into_bytes(),
        })
    }

    pub fn bytes(&self) -> &[u8] {
        self.bytes.as_slice()
    }

    // `strip HEX`, `strip bullets`
    pub fn change(&mut self, heap: Global, command: &mut Command<'_>) -> Answer {
        let word = command.word().unwrap_or("");
        command.end()?;
        *self = if word == "bullets" {
            Strip::bullets(heap)?
        } else {
            Strip {
                bytes: unhex(heap, word)?,
            }
        };
        Ok(Reply::Silent)
    }
}
