// That what was read is written again in the second form, with ample memory, is shown by the rows of a program that
// stands above: each of its rows is decoded and encoded.
use super::*;
use prv_model::Input;
use prv_part::Shape;
use std::alloc::{AllocError, Global};

const TEXT: &[u8] = b"int main(int a){return a;}";

#[test]
fn first_payloads_have_these_bytes(rt: HostRuntime) -> Result<(), AllocError> {
    let alloc = rt.alloc();
    let one = encode_pair(alloc, Form::One, 32, b"", TEXT, TEXT)?;
    assert_eq!(rt; one.len(), 65);
    assert_eq!(rt; &one[..9], [0, 32, 0, 0, 0, 26, 0, 0, 0].as_slice());
    assert!(rt; decode_pair(alloc, &[2, 32, 0, 1, 97, 1, 98]).is_ok());
    assert!(rt; decode_pair(alloc, &[0, 32, 0, 0, 0, 0, 0, 0, 0, 0, 0, 0, 0]).is_ok());
    Ok(())
}

#[test]
fn records_have_these_bytes(rt: HostRuntime) -> Result<(), AllocError> {
    let alloc = rt.alloc();
    let mut member = Input::new(alloc);
    member.push(-2)?;
    let raw = Raw {
        entry: 300,
        shape: Shape::Beyond,
        member: Some(member),
        other: RawOther::None,
        proof: Proof::None,
    };
    let one = encode(alloc, &raw, Form::One)?;
    let want = [1, 44, 1, 0, 0, 4, 1, 254, 255, 255, 255];
    assert_eq!(rt; one.as_slice(), want.as_slice());
    assert!(rt; decode(alloc, &want, Form::One).is_ok());
    assert!(rt; decode(alloc, &[3, 172, 2, 4, 1, 3], Form::Two).is_ok());
    Ok(())
}

/// Where a few bytes are no first payload.
fn bad_pair(alloc: Global, bytes: &[u8]) -> Option<u32> {
    if bytes.len() > 64 {
        return None;
    }
    match decode_pair(alloc, bytes) {
        Err(DecodeError::Bad { offset }) => Some(offset),
        Err(DecodeError::Memory) | Ok(_) => None,
    }
}

/// Where a few bytes are no record of the second form.
fn bad_record(alloc: Global, bytes: &[u8]) -> Option<u32> {
    if bytes.len() > 64 {
        return None;
    }
    match decode(alloc, bytes, Form::Two) {
        Err(DecodeError::Bad { offset }) => Some(offset),
        Err(DecodeError::Memory) | Ok(_) => None,
    }
}

#[test]
fn wrong_payloads_are_bad_there(rt: HostRuntime) {
    let alloc = rt.alloc();
    assert_eq!(rt; bad_pair(alloc, &[1, 0, 0, 0, 0]), Some(0));
    assert_eq!(rt; bad_pair(alloc, &[2, 0x80, 0, 0, 0]), Some(2));
    assert_eq!(rt; bad_pair(alloc, &[2, 0x20, 0, 0, 0, 7]), Some(5));
    assert_eq!(rt; bad_pair(alloc, &[2, 0x20, 0, 9, 0]), Some(5));
    assert_eq!(rt; bad_record(alloc, &[1, 0]), Some(0));
    assert_eq!(rt; bad_record(alloc, &[3, 0x80, 0]), Some(2));
    assert_eq!(rt; bad_record(alloc, &[3, 0, 5, 1]), Some(2));
    assert_eq!(rt; bad_record(alloc, &[3, 0, 1, 6]), Some(3));
    assert_eq!(rt; bad_record(alloc, &[3, 0, 4, 1, 3, 7]), Some(5));
    assert_eq!(rt; bad_record(alloc, &[3, 0, 0, 9, 0, 0]), Some(6));
}
