//! A generator for each thread.

ghost use Rattle.std.specs.Prelude.{◌≡◌, ◌≢◌, IfErr, IfOk, vec_len};

use crate::random::Random;
use ns_http::ConnFault;
use rand::make_rng;
use rand::rngs::StdRng;
use std::alloc::Global;
use std::random::RandomSource;

/// Returns `count` generators, each seeded by the system. The errors are `Read`, where the system gives no random bits, and
/// `Memory`.
pub fn generators<R: RandomSource>(
    rt: &R,
    alloc: Global,
    count: u64,
) -> Result<Vec<Random<StdRng>>, ConnFault>
    ensures many { IfOk result (λ all. vec_len all ≡ count) }
    ensures fault { IfErr result (λ fault. fault ≢ ConnFault.Write) }
{
    let mut all = Vec::new(alloc);
    for made in 0..count {
        let Ok(generator) = make_rng(rt) else {
            return Err(ConnFault::Read);
        };
        if all.push(Random::new(generator)).is_err() {
            return Err(ConnFault::Memory);
        }
    }
    Ok(all)
}
