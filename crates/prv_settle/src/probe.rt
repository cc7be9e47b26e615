//! The inputs that are tried before the solver is asked.
ghost use Rattle.std.specs.Prelude.{◌≡◌, ◌<◌, length, map, replicate, All, IfOk};
ghost use Rattle.prv_pool.specs.Tables.{term_at};
ghost use Rattle.prv_settle.specs.Probes.{first_probe as first_probe_of};

use prv_model::Input;
use prv_pool::Pool;
use prv_region::{Cond, Scratch};
use std::alloc::{AllocError, Global};

/// The words that the probes are made of.
const PROBE_WORDS: [i32; 5] = [0, 1, -1, i32::MAX, i32::MIN];

/// The first probe that meets a condition on so many words, if one does.
pub(crate) fn first_probe(
    alloc: Global,
    pool: &Pool,
    cond: &Cond,
    params: u8,
) -> Result<Option<Input>, AllocError>
    requires { All (λ n. n < length pool.now.terms) cond.now }
    ensures { IfOk result (λ found. found ≡ first_probe_of params (map (term_at pool.now.terms) cond.now)) }
{
    let mut scratch = Scratch::new(alloc);
    scratch.reserve_for(pool)?;
    for word in PROBE_WORDS {
        let input = repeated(alloc, word, params)?;
        if cond.holds(pool, &input, &mut scratch) {
            return Ok(Some(input));
        }
    }
    Ok(None)
}

/// The input of so many words that are all this one.
fn repeated(alloc: Global, word: i32, params: u8) -> Result<Input, AllocError>
    ensures { IfOk result (λ input. input ≡ replicate params word) }
{
    let mut input = Input::new(alloc);
    for _ in 0..params {
        input.push(word)?;
    }
    Ok(input)
}
