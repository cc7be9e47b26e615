//! Single bytes, each of a range.
ghost use Rattle.std.specs.Prelude.{◌≡◌};
ghost use Rattle.prv_codec.specs.Reading.{Gives, byte_at as byte_at_of};

use crate::error::ReadError;

/// The first byte, which is at least `low` and at most `high`, and the bytes behind it. Else it is
/// `Bad` at that byte.
#[tactic(auto, unfolding(crate::specs::Reading::byte_at))]
pub fn byte_at(low: u8, high: u8, bytes: &[u8]) -> Result<(u8, &[u8]), ReadError>
    ensures { Gives (λ x. (x.0, x.1.now)) result (byte_at_of low high bytes.now) }
{
    match bytes {
        [] => Err(ReadError::Bad { left: 0 }),
        [byte, rest @ ..] => {
            if low <= *byte && *byte <= high {
                Ok((*byte, rest))
            } else {
                Err(ReadError::Bad { left: bytes.len() })
            }
        }
    }
}
