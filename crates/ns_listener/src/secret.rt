//! The secret of the first management token.

ghost use Rattle.std.specs.Prelude.{◌≡◌, IfOk, IsTrue};
ghost use Rattle.ns_types.specs.declared.name.NameKind.TheVariants as NameKind;
ghost use Rattle.ns_types.specs.State.Name.{is_name};
ghost use Rattle.ns_listener.specs.Opening.{IsDrawn, IsSecret};

use ns_endpoints::{Draws, random_id};
use ns_types::name::Secret;
use ns_types::text::Text;
use std::alloc::{AllocError, Global};

/// A copy of the text, as a secret.
fn secret_of(alloc: Global, text: &Text) -> Result<Secret, AllocError>
    requires { IsTrue (is_name NameKind.Secret text.now) }
    ensures { IfOk result (λ secret. secret ≡ text.now) }
{
    match Secret::read(alloc, text.as_str())? {
        Some(secret) => Ok(secret),
        None => unreachable!(),
    }
}

/// A new secret, of random bits.
fn drawn_secret<D: Draws>(alloc: Global, draws: &mut D) -> Result<Secret, AllocError>
    ensures { IfOk result (λ secret. IsDrawn D.draws draws.old draws.new secret) }
{
    let bits = draws.draw();
    let text = random_id(alloc, bits)?;
    secret_of(alloc, &text)
}

/// The secret that is given, or a new one where none is.
pub fn chosen_secret<D: Draws>(
    alloc: Global,
    given: &Option<Secret>,
    draws: &mut D,
) -> Result<Secret, AllocError>
    ensures { IfOk result (IsSecret D.draws given.now draws.old) }
{
    match given {
        Some(given) => secret_of(alloc, given.get()),
        None => drawn_secret(alloc, draws),
    }
}
