//! The word of the command line.

ghost use Rattle.std.specs.Prelude.{IfSome};
ghost use Rattle.bench_shared.specs.Passes.{IsCount};

use node_ids::read_digits;
use std::rt::Env;

/// How many supervoxels the first word asks for, if it is a number from 1 to 100,000.
pub fn read_count<R: Env>(rt: &R) -> Option<u64>
    ensures { IfSome result (λ n. IsCount n) }
{
    let mut bytes = [0u8; 32];
    let Ok(length) = rt.arg(1, &mut bytes) else {
        return None;
    };
    if length > 32 {
        return None;
    }
    let (word, _) = bytes.split_at(length);
    let n = read_digits(word)?;
    if 1 <= n && n <= 100000 {
        return Some(n);
    }
    None
}
