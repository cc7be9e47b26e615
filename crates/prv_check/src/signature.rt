//! Signatures of clauses: each literal has one of 64 bits, and a clause has those of its literals. A
//! clause that has a bit which another hasn't can't be contained in it.
ghost use Rattle.std.specs.Prelude.{◌≡◌};
ghost use Rattle.prv_check.specs.Inner.Signatures.{literal_bit, signature};

use prv_cnf::Lit;

/// The bits of the clause's literals.
pub fn signature(lits: &[Lit]) -> u64
    ensures { result ≡ signature lits.now }
{
    let mut bits = 0;
    for lit in lits {
        bits |= literal_bit(*lit);
    }
    bits
}

/// The literal's bit, by the highest six bits of its place times 2^32 over the golden ratio.
fn literal_bit(lit: Lit) -> u64
    ensures { result ≡ literal_bit lit }
{
    let hash = (lit.place() as u32).wrapping_mul(0x9E37_79B1);
    1 << (hash >> 26)
}
