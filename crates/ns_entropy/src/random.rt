//! Random bits for new tokens and secrets.

ghost use Rattle.std.specs.Prelude.{◌≡◌};

use ns_endpoints::Draws;
use rand::Rng;

/// Bits from a generator.
#[derive(Drop)]
pub struct Random<R> {
    generator: R,
}

impl<R: Rng> Random<R> {
    /// Draws the bits of this generator.
    pub fn new(generator: R) -> Random<R>
        ensures { result.generator ≡ generator }
    {
        Random { generator }
    }
}

impl<R: Rng> Draws for Random<R> {
    ghost use Rattle.ns_entropy.specs.Random.{FillsBytes};

    // All bits of a draw come from the generator.
    ghost draws = { λ old bytes new. FillsBytes R.stream old.generator bytes new.generator };

    fn draw(&mut self) -> [u8; 16] {
        let mut bytes = [0; 16];
        self.generator.fill_bytes(&mut bytes);
        bytes
    }
}
