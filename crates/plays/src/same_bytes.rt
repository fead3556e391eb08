//! Draws that are known beforehand.

use ns_endpoints::Draws;

/// Draws sixteen times the same byte, which is greater by `step` in each later draw.
#[derive(Drop)]
pub struct SameBytes<'a> {
    /// The byte that is drawn next.
    pub next: &'a mut u8,
    pub step: u8,
}

impl Draws for SameBytes<'_> {
    ghost use Rattle.std.specs.Prelude.{◌≡◌, replicate};

    ghost draws = { λ old bytes new. bytes ≡ replicate 16 old.next.now };

    fn draw(&mut self) -> [u8; 16] {
        let bytes = [*self.next; 16];
        *self.next = self.next.wrapping_add(self.step);
        bytes
    }
}
