//! The pair of one number, worked out by hand.
use crate::generate;
use std::test::Fail;

/// The least pair, by the rule worked out by hand: the first state of 7 is 1025555898, and its draw 48.
#[test]
fn least_pair(rt: HostRuntime) -> Result<(), Fail> {
    let texts = generate(rt.alloc(), 7, 1)?;
    let before = b"int main(int a, int b) {\nint r = 0;\nif (a < 48) r = r + 1;\n@1 return r;\n}\n";
    let after =
        b"int main(int a, int b) {\nint r = 0;\nif (a < 48) r = r + 1;\n@1 if (a == b) return r + 1; else return r;\n}\n";
    assert!(rt;
        texts.before.as_slice() == before.as_slice(),
        "the old version"
    );
    assert!(rt;
        texts.after.as_slice() == after.as_slice(),
        "the new version"
    );
    Ok(())
}
