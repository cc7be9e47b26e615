//! Gates and assertions, each with what unit propagation makes of it.
ghost use Rattle.prv_gate.specs.Bits.{IsBit};

use super::*;
use prv_cnf::Lit;
use std::alloc::AllocError;
use std::process::Abort;

/// What stands for a constant bit where literals are numbers.
const TRUE: i32 = 1000;

fn bit_of(rt: &impl Abort, builder: &Builder, number: i32) -> Bit
    ensures { IsBit builder.now.formula.vars result }
{
    if number == TRUE {
        return Bit::True;
    }
    if number == -TRUE {
        return Bit::False;
    }
    let lit = Lit(number);
    let variable = lit.variable();
    let vars = builder.vars();
    assert!(rt; variable > 0);
    assert!(rt; variable <= vars);
    Bit::Lit(lit)
}

fn number_of(bit: Bit) -> i32 {
    match bit {
        Bit::False => -TRUE,
        Bit::True => TRUE,
        Bit::Lit(lit) => lit.0,
    }
}

/// A step with its operands, and what it answers: a gate, or `!` for an assertion of one of two bits
/// and what is then known of a third.
fn step(
    rt: &impl Abort,
    builder: &mut Builder,
    name: char,
    operands: (i32, i32, i32),
) -> Result<i32, AllocError> {
    let a = bit_of(rt, builder, operands.0);
    let b = bit_of(rt, builder, operands.1);
    let c = bit_of(rt, builder, operands.2);
    let vars = builder.vars();
    assert!(rt; vars < 100);
    let bit = match name {
        '&' => builder.and(a, b)?,
        '^' => builder.xor(a, b)?,
        '?' => builder.mux(a, b, c)?,
        'm' => builder.majority(a, b, c)?,
        '+' => builder.full_adder(a, b, c)?.0,
        _ => {
            builder.assert_any(&[a, b])?;
            let c = bit_of(rt, builder, operands.2);
            builder.known(c)
        }
    };
    Ok(number_of(bit))
}

#[test]
fn makes_each_gate_once_and_knows_what_was_asserted(rt: HostRuntime) -> Result<(), AllocError> {
    let mut builder = Builder::new(rt.alloc(), 3);
    for (name, operands, want, vars) in [
        ('&', (1, 2, 1), 4, 4),
        ('&', (2, 1, 1), 4, 4),
        ('&', (2, -2, 1), -TRUE, 4),
        ('&', (TRUE, 3, 1), 3, 4),
        ('^', (1, 2, 1), 5, 5),
        ('^', (-2, 1, 1), -5, 5),
        ('^', (-2, 2, 1), TRUE, 5),
        ('?', (3, 1, 2), 6, 6),
        ('?', (-3, -2, -1), -6, 6),
        ('?', (3, 1, -1), -7, 7),
        ('?', (3, 1, 3), 8, 8),
        ('m', (1, 2, 3), 9, 9),
        ('m', (-3, -1, -2), -9, 9),
        ('m', (3, -3, 2), 2, 9),
        // The low bit of a sum is the difference of 5 and 3, and its carry is known.
        ('+', (1, 2, 3), 10, 10),
        // Both inputs of an And that is true are true, and so is what follows from them.
        ('!', (4, 4, 1), TRUE, 10),
        ('!', (4, 4, 5), -TRUE, 10),
        ('!', (4, 4, 10), 10, 10),
        ('&', (1, 3, 1), 3, 10),
        ('!', (-3, -4, 9), TRUE, 10),
        ('!', (-3, -4, 10), -TRUE, 10),
        // A contradiction ends the formula, and nothing is known then.
        ('!', (3, 5, 1), 1, 10),
        ('!', (1, 1, 1), 1, 10),
    ] {
        let got = step(&rt, &mut builder, name, operands)?;
        assert_eq!(rt; (got, builder.vars()), (want, vars), "{name} {operands:?}");
    }
    assert!(rt; builder.is_ended());
    let cnf = builder.into_cnf();
    assert_eq!(rt; cnf.clauses().len(), 31);
    Ok(())
}
