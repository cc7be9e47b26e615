//! A law of dependences, the contract of a function that does nothing.
ghost use Rattle.std.specs.Prelude.{◌≡◌, ℕ, true};
ghost use Rattle.prv_model.specs.declared.stmt.Stmt.{Stmt};
ghost use Rattle.prv_dep.specs.Dependences.{has, writes, overwrites};

/// What a statement overwrites it may write.
pub fn overwritten_is_written()
    ensures { (s : Stmt) (v : ℕ) → has (overwrites s) v ≡ true → has (writes s) v ≡ true }
{}
