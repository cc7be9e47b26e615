// That a log is written with ample memory is shown by the rows of a program that stands above, whose records have logs.
use super::*;
use prv_model::Input;
use std::alloc::AllocError;

#[test]
fn fields_have_these_bytes(rt: HostRuntime) -> Result<(), AllocError> {
    let alloc = rt.alloc();
    let mut input = Input::new(alloc);
    input.push(-2)?;
    let mut one = Vec::new(alloc);
    put_input(&mut one, Form::One, &input)?;
    assert_eq!(rt; one.as_slice(), [1, 254, 255, 255, 255].as_slice());
    let mut two = Vec::new(alloc);
    put_input(&mut two, Form::Two, &input)?;
    put_long(&mut two, Form::Two, 1 << 32)?;
    put_text(&mut two, Form::Two, b"ab")?;
    let want = [1, 3, 128, 128, 128, 128, 16, 2, 97, 98];
    assert_eq!(rt; two.as_slice(), want.as_slice());
    Ok(())
}
