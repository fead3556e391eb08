//! The first line of a log.

ghost use Rattle.std.specs.Prelude.{◌≡◌, ◌≤◌, ◌++◌, Err, IfOk, IsTrue, drop, length};
ghost use Rattle.ns_types.specs.declared.name.NameKind.TheVariants as NameKind;
ghost use Rattle.ns_types.specs.State.Name.{is_name};
ghost use Rattle.ns_json.specs.Logs.{line_of};
ghost use Rattle.ns_log_reader.specs.Lines.{HasBadHead, first_text};
ghost use Rattle.ns_log_reader.specs.Reading.{IsNoFirst, opening_text};

use crate::fault::LineFault;
use crate::line::line_end;
use ns_types::name::Secret;
use std::alloc::Global;

/// The secret that the first line names.
fn secret_of(alloc: Global, line: &[u8]) -> Result<Secret, LineFault>
    ensures text { IfOk result (λ s. line.now ≡ opening_text s) }
    ensures is_secret { IfOk result (λ s. IsTrue (is_name NameKind.Secret s)) }
    ensures bad { result ≡ Err LineFault.Bad → IsNoFirst line.now }
{
    let Some(secret) = line.strip_prefix(b"nsd-log 3 0 ") else {
        return Err(LineFault::Bad);
    };
    let Ok(secret) = str::from_utf8(secret) else {
        return Err(LineFault::Bad);
    };
    match Secret::read(alloc, secret)? {
        Some(secret) => Ok(secret),
        None => Err(LineFault::Bad),
    }
}

/// The bootstrap secret, and the length of the first line in bytes.
#[derive(Drop)]
pub struct Head {
    pub secret: Secret,
    pub len: usize,
}

/// Reads the first line of a log at the front of the text.
pub fn read_head(alloc: Global, text: &[u8]) -> Result<Head, LineFault>
    ensures text { IfOk result (λ h.
        text.now ≡ line_of (first_text h.secret) ++ drop h.len text.now) }
    ensures is_secret { IfOk result (λ h. IsTrue (is_name NameKind.Secret h.secret)) }
    ensures within { IfOk result (λ h. h.len ≤ length text.now) }
    ensures bad { result ≡ Err LineFault.Bad → HasBadHead text.now }
{
    let Some(end) = line_end(text) else {
        return Err(LineFault::Bad);
    };
    let secret = secret_of(alloc, &text[..end])?;
    Ok(Head {
        secret,
        len: end + 1,
    })
}
