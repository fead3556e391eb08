//! A text, which contracts see as its bytes.

ghost use Rattle.std.specs.Prelude.{◌≡◌, IfOk, Some, refl};
ghost use Rattle.std.specs.Ordering.{nat_cmp};
ghost use Rattle.std.specs.Cmp.{partial_equiv_from_equiv};
ghost use Rattle.std.specs.Cmp.Lexicographic.{pointwise, slice_cmp, nat_list_eq_equiv, nat_list_cmp_total, texts_po, texts_ties};
ghost use Rattle.std.specs.Cmp.Rules.{hashing};
ghost use Rattle.std.specs.Hash;
ghost use Rattle.std.specs.Prelude.{nat_eq};
ghost use Rattle.std.specs.String.{string_bytes};
ghost use Rattle.ns_types.specs.State.Names.{same_name};
ghost use borrow.Author.Rules.{rules};

use arrayvec::ArrayString;
use std::alloc::{AllocError, Global};
use std::cmp::Ordering;
use std::hash::{Hash, Hasher};
use std::marker::Model;

/// How many bytes a text has at most that stands in the value itself.
const SHORT: usize = 16;

/// Where the bytes of a text stand.
enum Letters {
    Short(ArrayString<SHORT>),
    Long(String),
}

impl Drop for Letters {
    fn drop(self) {
        match self {
            Letters::Short(_) => {}
            Letters::Long(text) => drop(text),
        }
    }
}

/// A text of a row, compared by its bytes. A short one stands in the value itself, so that a copy of it takes no memory.
pub struct Text {
    letters: Letters,
}

impl Drop for Text {
    fn drop(self) {
        let Text { letters: _letters } = self;
    }
}

impl Model for Text {
    ghost use Rattle.std.specs.Prelude.{List, ℕ};
    ghost use Rattle.ns_types.specs.Texts.{letters_bytes};

    ghost Value = { List ℕ };

    ghost view = { λ t. letters_bytes t.letters };
}

impl Text {
    pub fn from_string(text: String) -> Text
        ensures { result ≡ string_bytes text }
    {
        Text {
            letters: Letters::Long(text),
        }
    }

    /// A copy of the text. Want of memory is the only error.
    pub fn from_str(alloc: Global, text: &str) -> Result<Text, AllocError>
        ensures { IfOk result (λ t. t ≡ text.now) }
    {
        let letters = match ArrayString::from(text) {
            Ok(short) => Letters::Short(short),
            Err(_) => Letters::Long(String::from_str(alloc, text)?),
        };
        Ok(Text { letters })
    }

    pub fn as_str(&self) -> &str
        ensures { result.now ≡ self.now }
    {
        match &self.letters {
            Letters::Short(text) => text.as_str(),
            Letters::Long(text) => text.as_str(),
        }
    }
}

impl Clone for Text {
    ghost is_clone = { λ text copy. copy ≡ text };

    fn clone(&self) -> Result<Text, AllocError> {
        let letters = match &self.letters {
            Letters::Short(text) => Letters::Short(*text),
            Letters::Long(text) => Letters::Long(text.clone()?),
        };
        Ok(Text { letters })
    }
}

impl PartialEq for Text {
    ghost eq = { λ a b. pointwise nat_eq a b };

    ghost laws = { partial_equiv_from_equiv nat_list_eq_equiv };

    fn eq(&self, other: &Text) -> bool {
        self.as_str() == other.as_str()
    }
}

impl Eq for Text {
    ghost laws = { nat_list_eq_equiv };
}

impl PartialOrd for Text {
    ghost partial_cmp = { λ a b. Some (slice_cmp nat_cmp a b) };

    ghost laws = { texts_po };

    fn partial_cmp(&self, other: &Text) -> Option<Ordering> {
        Some(self.cmp(other))
    }
}

impl Ord for Text {
    ghost cmp = { slice_cmp nat_cmp };

    ghost total = { nat_list_cmp_total };

    ghost matches_partial_cmp = { λ a b. refl };

    ghost matches_eq = { texts_ties };

    fn cmp(&self, other: &Text) -> Ordering {
        self.as_str().cmp(other.as_str())
    }
}

impl Hash for Text {
    ghost hash_input = { Hash.str };

    ghost respects_eq = { Prim.search (hashing, rules) };

    fn hash<H: Hasher>(&self, state: &mut H) {
        self.as_str().hash(state);
    }
}

/// Whether the texts have the same bytes.
#[tactic(auto, using(crate::proofs::Named::text_ties))]
pub fn same_text(a: &Text, b: &Text) -> bool
    ensures { result ≡ same_name a.now b.now }
{
    a == b
}
