//! Numbers of 32 and of 64 bits. The first form gives them a fixed width; the second takes groups of
//! seven bits, so that the small numbers of which logs are full take one or two bytes.
ghost use Rattle.std.specs.Prelude.{◌≡◌, ◌<◌, ◌≤◌, ◌^◌, ◌++◌, OnOk, IfOk};
ghost use Rattle.std.specs.Int.{w32, w64};
ghost use Rattle.prv_codec.specs.Forms.{number, long, groups, bound};
ghost use Rattle.prv_codec.specs.Reading.{Gives, fixed_at, groups_at as groups_at_of, shortest_at as shortest_at_of, number_at as number_at_of, long_at as long_at_of};

use crate::error::ReadError;
use crate::form::Form;
use byteorder::{ByteOrder, LittleEndian};
use std::alloc::AllocError;

/// Adds a number of 32 bits at the end.
pub fn put_number(out: &mut Vec<u8>, form: Form, n: u32) -> Result<(), AllocError>
    ensures { OnOk result (out.new.items ≡ out.old.items ++ number form n) }
{
    match form {
        Form::One => {
            let mut bytes = [0; 4];
            LittleEndian::write_u32(&mut bytes, n);
            out.extend_from_slice(&bytes)
        }
        Form::Two => put_groups(out, 4, u64::from(n)),
    }
}

/// Adds a number of 64 bits at the end.
pub fn put_long(out: &mut Vec<u8>, form: Form, n: u64) -> Result<(), AllocError>
    ensures { OnOk result (out.new.items ≡ out.old.items ++ long form n) }
{
    match form {
        Form::One => {
            let mut bytes = [0; 8];
            LittleEndian::write_u64(&mut bytes, n);
            out.extend_from_slice(&bytes)
        }
        Form::Two => put_groups(out, 9, n),
    }
}

/// Adds a number in groups of seven bits, of which so many may follow the first.
#[tactic(auto, unfolding(crate::specs::Forms::groups))]
fn put_groups(out: &mut Vec<u8>, more: u32, n: u64) -> Result<(), AllocError>
    requires { n < bound 128 more }
    ensures { OnOk result (out.new.items ≡ out.old.items ++ groups more n) }
{
    if n < 128 {
        out.push(n as u8)?;
        return Ok(());
    }
    out.push((128 + n % 128) as u8)?;
    put_groups(out, more - 1, n / 128)
}

/// The number of 32 bits at the front, and the bytes behind it.
pub fn number_at(form: Form, bytes: &[u8]) -> Result<(u32, &[u8]), ReadError>
    ensures { Gives (λ x. (x.0, x.1.now)) result (number_at_of form bytes.now) }
{
    match form {
        Form::One => short_at(bytes),
        Form::Two => {
            let (n, rest) = shortest_at(16, 4, bytes)?;
            Ok((n as u32, rest))
        }
    }
}

/// The number of 64 bits at the front, and the bytes behind it.
pub fn long_at(form: Form, bytes: &[u8]) -> Result<(u64, &[u8]), ReadError>
    ensures { Gives (λ x. (x.0, x.1.now)) result (long_at_of form bytes.now) }
{
    match form {
        Form::One => wide_at(bytes),
        Form::Two => shortest_at(2, 9, bytes),
    }
}

/// The number in the first four bytes, the low byte first.
fn short_at(bytes: &[u8]) -> Result<(u32, &[u8]), ReadError>
    ensures { Gives (λ x. (x.0, x.1.now)) result (fixed_at w32 bytes.now) }
{
    if bytes.len() < 4 {
        return Err(ReadError::Bad { left: 0 });
    }
    let (front, rest) = bytes.split_at(4);
    let number = u32::from_le_bytes([front[0], front[1], front[2], front[3]]);
    Ok((number, rest))
}

/// The number in the first eight bytes, the low byte first.
fn wide_at(bytes: &[u8]) -> Result<(u64, &[u8]), ReadError>
    ensures { Gives (λ x. (x.0, x.1.now)) result (fixed_at w64 bytes.now) }
{
    if bytes.len() < 8 {
        return Err(ReadError::Bad { left: 0 });
    }
    let (front, rest) = bytes.split_at(8);
    let number = u64::from_le_bytes([
        front[0], front[1], front[2], front[3], front[4], front[5], front[6], front[7],
    ]);
    Ok((number, rest))
}

/// The number in groups of seven bits at the front, where so many groups may follow the first and
/// the last of all is below `top`. Its last group isn't 0, unless the number is.
#[tactic(auto, using(crate::proofs::Bounds::zero_below), unfolding(crate::specs::Reading::shortest_at))]
fn shortest_at(top: u8, more: u32, bytes: &[u8]) -> Result<(u64, &[u8]), ReadError>
    requires some { 1 < top }
    requires fits { bound top more ≤ 2 ^ 64 }
    ensures gives { Gives (λ x. (x.0, x.1.now)) result (shortest_at_of top more bytes.now) }
    ensures below { IfOk result (λ x. x.0 < bound top more) }
{
    match bytes {
        [] => Err(ReadError::Bad { left: 0 }),
        [byte, rest @ ..] => {
            if *byte == 0 {
                Ok((0, rest))
            } else {
                groups_at(top, more, bytes)
            }
        }
    }
}

/// The same of a number that isn't 0.
#[tactic(auto, using(crate::proofs::Bounds::last_below, crate::proofs::Bounds::low_below), unfolding(crate::specs::Reading::groups_at))]
fn groups_at(top: u8, more: u32, bytes: &[u8]) -> Result<(u64, &[u8]), ReadError>
    requires some { 1 < top }
    requires fits { bound top more ≤ 2 ^ 64 }
    ensures gives { Gives (λ x. (x.0, x.1.now)) result (groups_at_of top more bytes.now) }
    ensures below { IfOk result (λ x. x.0 < bound top more) }
{
    match bytes {
        [] => Err(ReadError::Bad { left: 0 }),
        [byte, rest @ ..] => {
            let byte = *byte;
            if byte == 0 {
                return Err(ReadError::Bad { left: bytes.len() });
            }
            if more == 0 {
                if byte >= top {
                    return Err(ReadError::Bad { left: bytes.len() });
                }
                return Ok((u64::from(byte), rest));
            }
            if byte < 128 {
                return Ok((u64::from(byte), rest));
            }
            let (high, rest) = groups_at(top, more - 1, rest)?;
            Ok((u64::from(byte) - 128 + 128 * high, rest))
        }
    }
}
