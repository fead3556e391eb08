//! Draws the accessor and the secret of a new token.

ghost use Rattle.std.specs.Prelude.{◌≡◌, IfOk, IsTrue};
ghost use Rattle.ns_types.specs.declared.name.NameKind.TheVariants as NameKind;
ghost use Rattle.ns_types.specs.declared.step.Step.TheVariants as Step;
ghost use Rattle.ns_types.specs.declared.step.AdminCommand.TheVariants as AdminCommand;
ghost use Rattle.ns_steps.specs.Served.{IsServed};
ghost use Rattle.ns_types.specs.State.Name.{is_name};
ghost use Rattle.ns_endpoints.specs.Asking.{new_token};
ghost use Rattle.ns_endpoints.specs.Drawing.{GivesDrawn, random_id};
ghost use Rattle.ns_endpoints.specs.Wanted.{draft_step, IsServedDraft};

use crate::wanted::{Draft, GoodToken};
use ns_types::step::Step;
use ns_types::text::Text;
use std::alloc::{AllocError, Global};
use uuid::Builder;

/// A source of random bits.
pub trait Draws {
    ghost use Rattle.std.specs.Prelude.{ℕ, List};

    // The bits that a draw gives, and the source before and after it.
    ghost draws: { Self → List ℕ → Self → Type 0 };

    /// 128 random bits, new ones at each call.
    fn draw(&mut self) -> [u8; 16]
        ensures { draws self.old result self.new };
}

/// The text of the UUID of version 4 with these bits. Want of memory is the only error.
pub fn random_id(alloc: Global, bytes: [u8; 16]) -> Result<Text, AllocError>
    ensures text { IfOk result (λ text. text ≡ random_id bytes) }
    // The text can be a secret.
    ensures good { IfOk result (λ text. IsTrue (is_name NameKind.Secret text)) }
{
    let id = Builder::from_random_bytes(bytes).into_uuid();
    let mut buffer = [0; 36];
    Text::from_str(alloc, id.hyphenated().encode_lower(&mut buffer))
}

/// Draws the accessor and then the secret of the new token. Want of memory is the only error. It comes after the draws.
fn drawn_token<D: Draws>(
    alloc: Global,
    draws: &mut D,
    bearer: Option<Text>,
    token: GoodToken,
) -> Result<Step, AllocError>
    ensures drawn { let wanted = Step.Admin bearer (AdminCommand.CreateToken (new_token token)) in
        GivesDrawn D.draws wanted draws.old result draws.new }
    ensures served { IfOk result IsServed }
{
    let first = draws.draw();
    let second = draws.draw();
    let accessor = random_id(alloc, first)?;
    let secret = random_id(alloc, second)?;
    Ok(Step::Admin(bearer, token.with_texts(accessor, secret)))
}

/// Draws what the requested step needs, and returns the step. Want of memory is the only error. It comes after the draws.
pub fn drawn<D: Draws>(alloc: Global, draws: &mut D, draft: Draft) -> Result<Step, AllocError>
    requires { IsServedDraft draft }
    ensures drawn { GivesDrawn D.draws (draft_step draft) draws.old result draws.new }
    ensures served { IfOk result IsServed }
{
    match draft {
        Draft::Step(step) => Ok(step),
        Draft::Token(bearer, token) => drawn_token(alloc, draws, bearer, token),
    }
}
