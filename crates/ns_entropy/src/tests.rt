// Each thread draws from a generator of its own, and a known seed gives the known bits.
use crate::{Random, generators};
use ns_endpoints::Draws;
use ns_http::ConnFault;
use rand::SeedableRng;
use rand::rngs::StdRng;
use std::cell::Cell;
use std::io::{self, ErrorKind};
use std::random::RandomSource;
use std::rt::HostRuntime;
use std::test::Fail;

/// The first 32 bytes of ChaCha with 12 rounds for a key and a nonce of zeros, as published with the cipher.
const FIRST: [u8; 16] = [
    0x9b, 0xf4, 0x9a, 0x6a, 0x07, 0x55, 0xf9, 0x53, 0x81, 0x1f, 0xce, 0x12, 0x5f, 0x26, 0x83, 0xd5,
];

const SECOND: [u8; 16] = [
    0x04, 0x29, 0xc3, 0xbb, 0x49, 0xe0, 0x74, 0x14, 0x7e, 0x00, 0x89, 0xa5, 0x2e, 0xae, 0x15, 0x5f,
];

#[test]
fn draws_are_the_bytes_of_the_generator(rt: HostRuntime) {
    let mut draws = Random::new(StdRng::from_seed([0; 32]));
    assert!(rt; draws.draw() == FIRST);
    assert!(rt; draws.draw() == SECOND);
}

/// Fills all bytes with the number of earlier calls, and fails from the third call on.
#[derive(Drop)]
struct Calls(Cell<u8>);

impl RandomSource for Calls {
    fn fill_bytes(&self, buf: &mut [u8]) -> io::Result<()> {
        let before = self.0.get();
        if before >= 2 {
            return Err(io::Error::from(ErrorKind::Unsupported));
        }
        buf.fill(before);
        self.0.set(before + 1);
        Ok(())
    }
}

/// Whether it draws the same bits as a generator whose seed is this byte 32 times.
fn is_seeded_by(generator: Option<Random<StdRng>>, byte: u8) -> bool {
    let mut seeded = Random::new(StdRng::from_seed([byte; 32]));
    match generator {
        Some(mut generator) => generator.draw() == seeded.draw(),
        None => false,
    }
}

#[test]
fn generators_are_seeded_one_by_one(rt: HostRuntime) -> Result<(), Fail> {
    let mut all = generators(&Calls(Cell::new(0)), rt.alloc(), 2)?;
    assert!(rt; is_seeded_by(all.pop(), 1));
    assert!(rt; is_seeded_by(all.pop(), 0));
    let none = generators(&Calls(Cell::new(0)), rt.alloc(), 3);
    assert!(rt; none.err() == Some(ConnFault::Read));
    Ok(())
}
