//! Equality of programs, by recursion over their trees. A board asks it before it takes a settlement, which has
//! to be of its own pair.
ghost use Rattle.std.specs.Prelude.{◌≡◌, ◌↔◌, IsTrue};

use crate::expr::Expr;
use crate::name::Name;
use crate::program::Program;
use crate::stmt::Stmt;
use sqlite_items::Boxed;

/// Whether two expressions are one.
fn same_expr(a: &Expr, b: &Expr) -> bool
    ensures { IsTrue result ↔ (a.now ≡ b.now) }
{
    match (a, b) {
        (Expr::Num(m), Expr::Num(n)) => *m == *n,
        (Expr::Var(v), Expr::Var(w)) => *v == *w,
        (Expr::Un(op, x), Expr::Un(other, y)) => *op == *other && same_expr(x.get(), y.get()),
        (Expr::Bin(op, x, y), Expr::Bin(other, z, w)) => {
            *op == *other && same_expr(x.get(), z.get()) && same_expr(y.get(), w.get())
        }
        (Expr::Pick(t, x, y), Expr::Pick(u, z, w)) => {
            same_expr(t.get(), u.get())
                && same_expr(x.get(), z.get())
                && same_expr(y.get(), w.get())
        }
        _ => false,
    }
}

/// Whether two statements are one.
#[cycle(same)]
fn same_stmt(a: &Stmt, b: &Stmt) -> bool
    ensures { IsTrue result ↔ (a.now ≡ b.now) }
{
    match (a, b) {
        (Stmt::Skip, Stmt::Skip) => true,
        (Stmt::Set { var: v, value: x }, Stmt::Set { var: w, value: y }) => *v == *w
            && same_expr(x, y),
        (
            Stmt::If {
                test: t,
                yes: x,
                no: n,
            },
            Stmt::If {
                test: u,
                yes: y,
                no: m,
            },
        ) => same_expr(t, u) && same_stmt(x.get(), y.get()) && same_branch(n, m),
        (Stmt::While { test: t, body: x }, Stmt::While { test: u, body: y }) => {
            same_expr(t, u) && same_stmt(x.get(), y.get())
        }
        (Stmt::Return(x), Stmt::Return(y)) => same_expr(x, y),
        (Stmt::Out(x), Stmt::Out(y)) => same_expr(x, y),
        (Stmt::Assert(x), Stmt::Assert(y)) => same_expr(x, y),
        (Stmt::Block(x), Stmt::Block(y)) => same_body(x.as_slice(), y.as_slice()),
        (Stmt::Marked { mark: k, body: x }, Stmt::Marked { mark: l, body: y }) => {
            *k == *l && same_stmt(x.get(), y.get())
        }
        _ => false,
    }
}

/// Whether two branches of an `else` are one.
#[cycle(same)]
fn same_branch(a: &Option<Boxed<Stmt>>, b: &Option<Boxed<Stmt>>) -> bool
    ensures { IsTrue result ↔ (a.now ≡ b.now) }
{
    match (a, b) {
        (None, None) => true,
        (Some(x), Some(y)) => same_stmt(x.get(), y.get()),
        _ => false,
    }
}

/// Whether two lists of statements are one.
#[cycle(same)]
fn same_body(a: &[Stmt], b: &[Stmt]) -> bool
    ensures { IsTrue result ↔ (a.now ≡ b.now) }
{
    if a.len() != b.len() {
        return false;
    }
    for i in 0..a.len() {
        if !same_stmt(&a[i], &b[i]) {
            return false;
        }
    }
    true
}

/// Whether two lists of names are one.
fn same_names(a: &[Name], b: &[Name]) -> bool
    ensures { IsTrue result ↔ (a.now ≡ b.now) }
{
    if a.len() != b.len() {
        return false;
    }
    for i in 0..a.len() {
        if !a[i].same(&b[i]) {
            return false;
        }
    }
    true
}

/// Whether two programs are one, the names of their variables included.
pub fn same_program(a: &Program, b: &Program) -> bool
    ensures { IsTrue result ↔ (a.now ≡ b.now) }
{
    a.params == b.params
        && same_names(a.names.as_slice(), b.names.as_slice())
        && same_body(a.body.as_slice(), b.body.as_slice())
}
