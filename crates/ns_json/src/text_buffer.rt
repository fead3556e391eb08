//! A text that grows piece by piece.

ghost use Rattle.std.specs.Prelude.{◌≡◌, [], IfOk, OnOk, string_bytes};
ghost use Rattle.ns_json.specs.JobText.{Continues};

use arrayvec::ArrayString;
use std::alloc::{AllocError, Global};
use std::marker::Model;

/// How many bytes stand in the buffer itself.
const ROOM: usize = 384;

/// A text that grows, which contracts see as its bytes. The last pieces stand in the buffer itself, where a piece is copied
/// without a look at memory; when they have no more room there, they move to a string.
#[derive(Drop)]
pub(crate) struct TextBuffer {
    moved: String,
    last: ArrayString<ROOM>,
}

impl Model for TextBuffer {
    ghost use Rattle.std.specs.Prelude.{◌++◌, List, ℕ, string_bytes};

    ghost Value = { List ℕ };

    ghost view = { λ b. string_bytes b.moved ++ b.last.bytes };
}

impl TextBuffer {
    /// An empty text. It takes no memory.
    pub(crate) fn new(alloc: Global) -> TextBuffer
        ensures { result ≡ [] }
    {
        TextBuffer {
            moved: String::new(alloc),
            last: ArrayString::new(),
        }
    }

    /// Adds a piece for which the last ones leave no room.
    #[inline(never)]
    fn push_beside(&mut self, text: &str) -> Result<(), AllocError>
        ensures { OnOk result (Continues self.old self.new text.now) }
    {
        self.moved.push_str(self.last.as_str())?;
        self.last.clear();
        self.moved.push_str(text)
    }

    /// Adds a piece. Want of memory is the only error. Inlined, as what passes it constants is, so that these are copied
    /// without a call.
    #[inline(always)]
    pub(crate) fn push(&mut self, text: &str) -> Result<(), AllocError>
        ensures { OnOk result (Continues self.old self.new text.now) }
    {
        match self.last.try_push_str(text) {
            Ok(()) => Ok(()),
            Err(_) => self.push_beside(text),
        }
    }

    /// The text, in memory of its length if it is short. Want of memory is the only error.
    pub(crate) fn into_string(self) -> Result<String, AllocError>
        ensures { IfOk result (λ s. string_bytes s ≡ self) }
    {
        let mut text = self;
        text.moved.push_str(text.last.as_str())?;
        let TextBuffer { moved, .. } = text;
        Ok(moved)
    }
}
