//! The secret of a request.

ghost use Rattle.std.specs.Prelude.{◌≡◌, IfOk};
ghost use Rattle.std.specs.Option.{option_copied};
ghost use Rattle.ns_request.specs.Secrets.{known, secret_of};

use ns_types::name::{Name, NameKind};
use ns_types::text::Text;
use std::alloc::{AllocError, Global};

/// This text is no secret, so no token has it.
const UNKNOWN: &str = " ";

/// The token's text if it can be a secret, otherwise the unknown one.
fn known(token: &[u8]) -> &str
    ensures { result.now ≡ known token.now }
{
    let Ok(text) = str::from_utf8(token) else {
        return UNKNOWN;
    };
    match Name::read(NameKind::Secret, text) {
        Some(name) => name.as_str(),
        None => UNKNOWN,
    }
}

/// The secret of a token: none if there is no token or it is empty. Want of memory is the only error.
pub fn secret(alloc: Global, token: Option<&[u8]>) -> Result<Option<Text>, AllocError>
    ensures { IfOk result (λ secret. secret ≡ secret_of (option_copied token.entry)) }
{
    match token {
        None | Some([]) => Ok(None),
        Some(token) => {
            let text = Text::from_str(alloc, known(token))?;
            Ok(Some(text))
        }
    }
}
