//! Ids of evaluations and allocations: texts of UUIDs, which contain a kind and a number.

ghost use Rattle.std.specs.Prelude.{◌≡◌, ◌<◌, ◌^◌, ℕ, Some, IfSome, IfNone, IfOk, ◌≤◌, length};
ghost use Rattle.ns_types.specs.State.Id.{IsNoId, id_text, id_number, kind_number, uuid_number};

use crate::text::Text;
use std::alloc::{AllocError, Global};
use uuid::Uuid;

/// Whether an id is that of an evaluation or of an allocation.
#[derive(Clone, Copy, PartialEq, Eq)]
pub enum IdKind {
    Evaluation,
    Allocation,
}

impl IdKind {
    fn number(self) -> u64
        ensures { result ≡ kind_number self }
    {
        match self {
            IdKind::Evaluation => 1,
            IdKind::Allocation => 2,
        }
    }
}

/// The text of the id of that kind and number, in a buffer that has room for it.
pub fn id_str(kind: IdKind, number: u64, buffer: &mut [u8]) -> &str
    requires { 36 ≤ length buffer.old }
    ensures { result.now ≡ id_text kind number }
{
    Uuid::from_u64_pair(kind.number(), number)
        .hyphenated()
        .encode_lower(buffer)
}

/// The text of the id of that kind and number.
pub fn id_text(alloc: Global, kind: IdKind, number: u64) -> Result<Text, AllocError>
    ensures { IfOk result (λ text. text ≡ id_text kind number) }
{
    let mut buffer = [0; 36];
    Text::from_str(alloc, id_str(kind, number, &mut buffer))
}

/// The number in an id of that kind. None if the text is no such id.
pub fn id_read(kind: IdKind, text: &str) -> Option<u64>
    // The text is the id of that number.
    ensures found { IfSome result (λ n. uuid_number text.now ≡ Some (id_number kind n)) }
    ensures none { IfNone result (IsNoId kind text.now) }
    // It reads back what `id_text` writes.
    ensures written { (n : ℕ) → n < 2 ^ 64 → text.now ≡ id_text kind n → result ≡ Some n }
{
    let Ok(id) = Uuid::parse_str(text) else {
        return None;
    };
    let (high, low) = id.as_u64_pair();
    (high == kind.number()).then_some(low)
}
