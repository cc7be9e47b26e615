//! Texts of pairs for trials, made from a number: a chain of tests, of which one version returns one more where
//! the parameters are equal. The number of regions grows with the size, so these show how costs grow.
ghost use Rattle.std.specs.Prelude.{◌≡◌, ◌≤◌, ◌++◌, IfOk, OnOk, codes, decimal};
ghost use Rattle.prv_gen.specs.Generated.{before_text, after_text, program, test_line, test_lines, line};

use crate::draws::Draws;
use itoa::{Buffer, Integer};
use std::alloc::{AllocError, Global};

/// The texts of two versions.
#[derive(Debug, Drop)]
pub struct Texts {
    /// The text of the version as it was.
    pub before: Vec<u8>,
    /// The text of the version as it is.
    pub after: Vec<u8>,
}

/// The pair of a number and a size, which is 1 to 50: the count of tests.
pub fn generate(alloc: Global, number: u32, size: u32) -> Result<Texts, AllocError>
    requires some { 1 ≤ size }
    requires few { size ≤ 50 }
    ensures before { IfOk result (λ texts. texts.before.items ≡ before_text number size) }
    ensures after { IfOk result (λ texts. texts.after.items ≡ after_text number size) }
{
    Ok(Texts {
        before: version(alloc, number, size, b"@1 return r;")?,
        after: version(
            alloc,
            number,
            size,
            b"@1 if (a == b) return r + 1; else return r;",
        )?,
    })
}

/// The text of a version with its last statement.
fn version(alloc: Global, number: u32, size: u32, last: &[u8]) -> Result<Vec<u8>, AllocError>
    requires { size ≤ 50 }
    ensures { IfOk result (λ text. text.items ≡ program number size last.now) }
{
    let mut out = Vec::new(alloc);
    push_line(&mut out, b"int main(int a, int b) {")?;
    push_line(&mut out, b"int r = 0;")?;
    push_tests(&mut out, number, size)?;
    push_line(&mut out, last)?;
    push_line(&mut out, b"}")?;
    Ok(out)
}

/// Writes the tests, one a line.
fn push_tests(out: &mut Vec<u8>, number: u32, size: u32) -> Result<(), AllocError>
    requires { size ≤ 50 }
    ensures { OnOk result (out.new.items ≡ out.old.items ++ test_lines number 1 size) }
{
    let mut draws = Draws { state: number };
    for k in 0..size {
        let bound = draws.draw();
        push_test(out, bound, k + 1)?;
    }
    Ok(())
}

/// Writes the line of one test.
fn push_test(out: &mut Vec<u8>, bound: u32, k: u32) -> Result<(), AllocError>
    ensures { OnOk result (out.new.items ≡ out.old.items ++ test_line bound k) }
{
    out.extend_from_slice(b"if (a < ")?;
    push_number(out, bound)?;
    out.extend_from_slice(b") r = r + ")?;
    push_number(out, k)?;
    push_line(out, b";")
}

fn push_line(out: &mut Vec<u8>, text: &[u8]) -> Result<(), AllocError>
    ensures { OnOk result (out.new.items ≡ out.old.items ++ line text.now) }
{
    out.extend_from_slice(text)?;
    out.push(b'\n')?;
    Ok(())
}

fn push_number(out: &mut Vec<u8>, n: u32) -> Result<(), AllocError>
    ensures { OnOk result (out.new.items ≡ out.old.items ++ decimal n) }
{
    let mut buffer = Buffer::new();
    out.extend_from_slice(buffer.format(n).as_bytes())
}
