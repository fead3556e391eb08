//! The body of an answer, which contracts see as its bytes.

ghost use Rattle.std.specs.Prelude.{◌≡◌, IfOk};
ghost use Rattle.std.specs.String.{string_bytes};

use std::alloc::{AllocError, Global};
use std::marker::Model;

/// The body of an answer, in the memory in which it was written.
pub struct Body {
    text: String,
}

impl Drop for Body {
    fn drop(self) {
        let Body { text: _text } = self;
    }
}

impl Model for Body {
    ghost use Rattle.std.specs.Prelude.{List, ℕ};
    ghost use Rattle.std.specs.String.{string_bytes};

    ghost Value = { List ℕ };

    ghost view = { λ b. string_bytes b.text };
}

impl Body {
    pub fn from_string(text: String) -> Body
        ensures { result ≡ string_bytes text }
    {
        Body { text }
    }

    /// A copy of the text. Want of memory is the only error.
    pub fn from_str(alloc: Global, text: &str) -> Result<Body, AllocError>
        ensures { IfOk result (λ body. body ≡ text.now) }
    {
        let text = String::from_str(alloc, text)?;
        Ok(Body { text })
    }

    pub fn into_string(self) -> String
        ensures { string_bytes result ≡ self }
    {
        let Body { text } = self;
        text
    }

    pub fn as_str(&self) -> &str
        ensures { result.now ≡ self.now }
    {
        self.text.as_str()
    }
}

impl Clone for Body {
    ghost is_clone = { λ body copy. copy ≡ body };

    fn clone(&self) -> Result<Body, AllocError> {
        let text = self.text.clone()?;
        Ok(Body { text })
    }
}
