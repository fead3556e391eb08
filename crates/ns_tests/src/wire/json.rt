// A document whose bytes are no text, which no stored text can show. A call that is refused for want of memory is made once
// more.
use ns_json::{RegistrationDocument, read_registration};
use ns_types::refusal::Refusal;
use std::alloc::Global;

fn read(alloc: Global, body: &[u8]) -> Result<RegistrationDocument, Refusal> {
    let answer = read_registration(alloc, body);
    if matches!(&answer, Err(Refusal::Memory)) {
        return read_registration(alloc, body);
    }
    answer
}

const NO_TEXT: &[u8] = b"{\"Job\":{},\"x\":\"\xff\"}";

fn is_bad_json(alloc: Global, body: &[u8]) -> bool {
    matches!(read(alloc, body), Err(Refusal::BadJson))
}

#[test]
fn bad_json(rt: HostRuntime) {
    assert!(rt; is_bad_json(rt.alloc(), NO_TEXT));
}
