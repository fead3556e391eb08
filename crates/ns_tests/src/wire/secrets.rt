// The secret of a token, whose bytes need not be text. A call that is refused for want of memory is made once more.
use ns_request::secret;
use ns_types::text::Text;
use std::alloc::{AllocError, Global};
use std::test::Fail;

fn read(alloc: Global, token: Option<&[u8]>) -> Result<Option<Text>, AllocError> {
    match secret(alloc, token) {
        Ok(secret) => Ok(secret),
        Err(_) => secret(alloc, token),
    }
}

fn is_secret(secret: &Option<Text>, expected: Option<&str>) -> bool {
    match (secret, expected) {
        (Some(secret), Some(expected)) => secret.as_str() == expected,
        (None, None) => true,
        _ => false,
    }
}

/// Whether the secret of the token is this one.
fn is_read_as(
    alloc: Global,
    token: Option<&[u8]>,
    expected: Option<&str>,
) -> Result<bool, AllocError> {
    let secret = read(alloc, token)?;
    Ok(is_secret(&secret, expected))
}

#[test]
fn secrets_of_tokens(rt: HostRuntime) -> Result<(), Fail> {
    let alloc = rt.alloc();
    let long = [b'a'; 65];
    let cases: [(Option<&[u8]>, Option<&str>); 6] = [
        (None, None),
        (Some(b""), None),
        (Some(b"root"), Some("root")),
        (Some(b"two words"), Some(" ")),
        (Some(b"\xff"), Some(" ")),
        (Some(&long), Some(" ")),
    ];
    for (token, expected) in cases {
        assert!(rt; is_read_as(alloc, token, expected)?);
    }
    Ok(())
}
