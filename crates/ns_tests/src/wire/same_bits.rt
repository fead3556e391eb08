// Draws that are known.
use ns_endpoints::Draws;

/// Draws the same bits again and again.
#[derive(Clone, Copy)]
pub(crate) struct SameBits;

impl Draws for SameBits {
    ghost use Rattle.std.specs.Prelude.{◌≡◌, replicate};

    ghost draws = { λ old bytes new. bytes ≡ replicate 16 1 };

    fn draw(&mut self) -> [u8; 16] {
        [1; 16]
    }
}
