//! What a row of the table asks, by its first word, and the call that answers it.
ghost use Rattle.std.specs.Prelude.{◌<◌, ◌≤◌, length};
ghost use Rattle.prv_settle.specs.declared.limits.TheConstants.{MAX_LINES};

use crate::expansion::expanded;
use crate::formulas::{Shown, shown_of};
use crate::payloads::{first_answer, record_answer};
use crate::refusal::Refusal;
use crate::settlements::{
    board_answer, capped_answer, find_answer, parent_answer, path_answer, settle_answer,
};
use crate::stages::{chosen_of, pair_of, run_of, terms_of, trace_of, tree_of, version_of};
use crate::terms::show_term;
use crate::tokens::{show_bytes, show_skeleton, show_tokens};
use crate::trees::{show_all, show_ident};
use prv_dep::Writes;
use prv_lex::tokens;
use prv_line::read_words;
use prv_pool::Pool;
use prv_settle::MAX_LINES;
use std::alloc::{AllocError, Global};

/// What stands around an expression.
const VALUE: (&str, &str) = ("int main(int a) { return ", "; }");
/// What stands around an expression over two parameters.
const TERMS: (&str, &str) = ("int main(int a, int b) { return ", "; }");
/// What stands around statements.
const BODY: (&str, &str) = ("int main(int a) {", "}");

/// What a row gives: its first word says what is asked of the text behind it.
pub fn answer(alloc: Global, row: &str) -> Result<String, Refusal> {
    let (kind, text) = row.split_once(' ').unwrap_or((row, ""));
    match kind {
        "tokens" => tokens_answer(alloc, text),
        "program" => program_answer(alloc, text),
        "body" => body_answer(alloc, BODY, text),
        "value" => body_answer(alloc, VALUE, text),
        "is-body" => tree_answer(alloc, BODY, text),
        "is-value" => tree_answer(alloc, VALUE, text),
        "skeleton" => skeleton_answer(alloc, text),
        "names" => names_answer(alloc, text),
        "is-program" => version_answer(alloc, text),
        "pair" => pair_answer(alloc, text),
        "run" => run_answer(alloc, text),
        "trace" => trace_answer(alloc, text),
        "choice" => choice_answer(alloc, text),
        "terms" => terms_answer(alloc, text),
        "reach" => reach_answer(alloc, text),
        "words" => words_answer(alloc, text),
        "settle" => settle_answer(alloc, text),
        "board" => board_answer(alloc, text),
        "capped" => capped_answer(alloc, text),
        "find" => find_answer(alloc, text),
        "path" => path_answer(alloc, text),
        "parent" => parent_answer(alloc, text),
        "formula" => formula_answer(alloc, text),
        "search" => search_answer(alloc, text),
        "edges" => edges_answer(alloc, text),
        "first" => first_answer(alloc, text),
        "record" => record_answer(alloc, text),
        _ => Err(Refusal::Row),
    }
}

fn tokens_answer(alloc: Global, text: &str) -> Result<String, Refusal> {
    let text = expanded(alloc, text)?;
    let list = tokens(alloc, text.as_slice())?;
    let mut line = String::new(alloc);
    show_tokens(&mut line, list.as_slice())?;
    Ok(line)
}

fn program_answer(alloc: Global, text: &str) -> Result<String, Refusal> {
    let text = expanded(alloc, text)?;
    let tree = tree_of(alloc, text.as_slice())?;
    let mut line = String::new(alloc);
    for param in tree.params.as_slice() {
        show_ident(&mut line, param)?;
        line.push(' ')?;
    }
    show_all(&mut line, tree.body.as_slice())?;
    Ok(line)
}

/// A text, with what stands around it.
fn around(alloc: Global, frame: (&str, &str), text: &str) -> Result<Vec<u8>, AllocError> {
    let mut all = frame.0.as_bytes().to_vec(alloc)?;
    let inner = expanded(alloc, text)?;
    all.extend_from_slice(inner.as_slice())?;
    all.extend_from_slice(frame.1.as_bytes())?;
    Ok(all)
}

fn body_answer(alloc: Global, frame: (&str, &str), text: &str) -> Result<String, Refusal> {
    let text = around(alloc, frame, text)?;
    let tree = tree_of(alloc, text.as_slice())?;
    let mut line = String::new(alloc);
    show_all(&mut line, tree.body.as_slice())?;
    Ok(line)
}

fn tree_answer(alloc: Global, frame: (&str, &str), text: &str) -> Result<String, Refusal> {
    let text = around(alloc, frame, text)?;
    let _tree = tree_of(alloc, text.as_slice())?;
    Ok("yes".to_string(alloc)?)
}

fn skeleton_answer(alloc: Global, text: &str) -> Result<String, Refusal> {
    let text = expanded(alloc, text)?;
    let tree = tree_of(alloc, text.as_slice())?;
    let mut line = String::new(alloc);
    show_skeleton(&mut line, tree.skeleton.as_slice())?;
    Ok(line)
}

/// The names of a program's variables, and its marks.
fn names_answer(alloc: Global, text: &str) -> Result<String, Refusal> {
    let text = expanded(alloc, text)?;
    let version = version_of(alloc, text.as_slice())?;
    let program = &version.program;
    let params = program.params;
    let mut line = format!(in alloc; "{params} of")?;
    for name in program.names.as_slice() {
        line.push(' ')?;
        show_bytes(&mut line, name.as_bytes())?;
    }
    for mark in version.marks.as_slice() {
        let (number, place, inside) = (mark.mark, mark.place, mark.inside);
        write!(line, "; {number}@{place} inside {inside}")?;
    }
    Ok(line)
}

fn version_answer(alloc: Global, text: &str) -> Result<String, Refusal> {
    let text = expanded(alloc, text)?;
    let _version = version_of(alloc, text.as_slice())?;
    Ok("yes".to_string(alloc)?)
}

/// Two texts with ` <> ` between them.
fn pair_answer(alloc: Global, texts: &str) -> Result<String, Refusal> {
    let (before, after) = texts.split_once(" <> ").ok_or(Refusal::Row)?;
    let before = expanded(alloc, before)?;
    let after = expanded(alloc, after)?;
    let pair = pair_of(alloc, before.as_slice(), after.as_slice())?;
    let (old, new, turns) = (pair.before.params, pair.after.params, pair.turns);
    Ok(format!(in alloc; "pair {old} {new} {turns}")?)
}

/// The bound on turns and the words of the input, with ` : ` between them and the program.
fn run_answer(alloc: Global, text: &str) -> Result<String, Refusal> {
    let (numbers, text) = text.split_once(" : ").ok_or(Refusal::Row)?;
    let text = expanded(alloc, text)?;
    let outcome = run_of(alloc, numbers, text.as_slice())?;
    let how = outcome.how;
    let mut line = format!(in alloc; "{how:?}")?;
    for word in outcome.outs.as_slice() {
        write!(line, " {word}")?;
    }
    Ok(line)
}

/// As for a run, and then each evaluation: the number of its statement, what it was for, and its value.
fn trace_answer(alloc: Global, text: &str) -> Result<String, Refusal> {
    let (numbers, text) = text.split_once(" : ").ok_or(Refusal::Row)?;
    let text = expanded(alloc, text)?;
    let traced = trace_of(alloc, numbers, text.as_slice())?;
    let how = traced.outcome.how;
    let mut line = format!(in alloc; "{how:?}")?;
    for word in traced.outcome.outs.as_slice() {
        write!(line, " {word}")?;
    }
    for event in traced.events.as_slice() {
        let (stmt, what, value) = (event.stmt, event.what, event.value);
        if event.safe {
            write!(line, "; {stmt} {what:?} {value}")?;
        } else {
            write!(line, "; {stmt} {what:?} {value} fault")?;
        }
    }
    Ok(line)
}

/// As for a run: of each evaluation 1 where it is kept and 0 where it isn't, and then the marks.
fn choice_answer(alloc: Global, text: &str) -> Result<String, Refusal> {
    let (numbers, text) = text.split_once(" : ").ok_or(Refusal::Row)?;
    let text = expanded(alloc, text)?;
    let chosen = chosen_of(alloc, numbers, text.as_slice())?;
    let mut line = String::new(alloc);
    for is_kept in chosen.events.as_slice() {
        line.push(if *is_kept { '1' } else { '0' })?;
    }
    for mark in chosen.marks.as_slice() {
        write!(line, " @{mark}")?;
    }
    Ok(line)
}

/// The terms of an expression's value and of its safety.
fn terms_answer(alloc: Global, text: &str) -> Result<String, Refusal> {
    let text = around(alloc, TERMS, text)?;
    let mut pool = Pool::new(alloc, 100);
    let symbols = terms_of(alloc, text.as_slice(), &mut pool)?;
    let mut line = String::new(alloc);
    for value in symbols.values.as_slice() {
        show_term(&mut line, &pool, *value)?;
    }
    for safe in symbols.safes.as_slice() {
        line.push_str("; ")?;
        show_term(&mut line, &pool, *safe)?;
    }
    Ok(line)
}

/// Of each statement the variables that it may write, those that it overwrites and those that it reads, and
/// whether it may leave.
fn reach_answer(alloc: Global, text: &str) -> Result<String, Refusal> {
    let text = expanded(alloc, text)?;
    let program = version_of(alloc, text.as_slice())?.program;
    let writes = Writes::of(alloc, &program)?;
    let mut line = String::new(alloc);
    for stmt in 0..1_000 {
        if (stmt as usize) < writes.len() {
            write!(line, "{stmt}")?;
            show_reach(&mut line, &writes, stmt)?;
            line.push(';')?;
        }
    }
    Ok(line)
}

fn show_reach(line: &mut String, writes: &Writes, stmt: u32) -> Result<(), AllocError>
    requires { stmt < length writes.now }
{
    for var in 0..64 {
        if writes.may_write(stmt, var) {
            write!(line, " w{var}")?;
        }
        if writes.overwrites(stmt, var) {
            write!(line, " o{var}")?;
        }
        if writes.reads(stmt, var) {
            write!(line, " r{var}")?;
        }
    }
    if writes.may_leave(stmt) {
        line.push_str(" leaves")?;
    }
    Ok(())
}

/// Words of a command line, each with `|` behind it.
fn words_answer(alloc: Global, text: &str) -> Result<String, Refusal> {
    let mut words: Vec<&str> = text.split('|').collect(alloc)?;
    words.pop();
    let command = read_words(alloc, words.as_slice())?;
    let waits = command.waits();
    Ok(format!(in alloc; "{command:?} waits {waits}")?)
}

/// What unit propagation shows of the formula of a condition.
fn formula_answer(alloc: Global, text: &str) -> Result<String, Refusal> {
    shown_answer(alloc, text, 1)
}

/// A budget of lines before a condition: what a search within it shows.
fn search_answer(alloc: Global, text: &str) -> Result<String, Refusal> {
    let (lines, text) = text.split_once(' ').ok_or(Refusal::Row)?;
    let lines: u32 = lines.parse()?;
    if lines == 0 || lines > MAX_LINES {
        return Err(Refusal::Row);
    }
    shown_answer(alloc, text, lines)
}

fn shown_answer(alloc: Global, text: &str, lines: u32) -> Result<String, Refusal>
    requires some { 1 ≤ lines }
    requires few { lines ≤ MAX_LINES }
{
    let text = expanded(alloc, text)?;
    let text = String::from_utf8(text).map_err(|_| Refusal::Row)?;
    let mut line = String::new(alloc);
    match shown_of(alloc, text.as_str(), lines)? {
        Shown::Met(input) => {
            line.push_str("met at")?;
            for word in input.as_slice() {
                write!(line, " {word}")?;
            }
        }
        Shown::Refuted => line.push_str("refuted")?,
        Shown::Open => line.push_str("open")?,
        Shown::Large => line.push_str("over a million clauses")?,
        Shown::Costs(cost) => write!(line, "costs {cost}")?,
    }
    Ok(line)
}

/// An operator and words: of each two of the words what the operator's circuit gives, with `;` behind each first one.
fn edges_answer(alloc: Global, text: &str) -> Result<String, Refusal> {
    let (op, words) = text.split_once(' ').ok_or(Refusal::Row)?;
    let mut line = String::new(alloc);
    for a in words.split(' ') {
        for b in words.split(' ') {
            show_edge(alloc, &mut line, op, a, b)?;
        }
        line.push(';')?;
    }
    Ok(line)
}

/// Shows what the circuit of an operator on two parameters gives where these are made two numbers afterwards, and `?`
/// where unit propagation alone doesn't find it.
fn show_edge(alloc: Global, line: &mut String, op: &str, a: &str, b: &str) -> Result<(), Refusal> {
    let circuit = format!(in alloc; "c a b {op} == a {a} == b {b} ==")?;
    let Shown::Met(input) = shown_of(alloc, circuit.as_str(), 1)? else {
        return Err(Refusal::Row);
    };
    let value = input.as_slice().get(2).copied().unwrap_or(0);
    write!(line, " {value}")?;
    let other = format!(in alloc; "{circuit} c {value} !=")?;
    if !matches!(shown_of(alloc, other.as_str(), 1)?, Shown::Refuted) {
        line.push('?')?;
    }
    Ok(())
}
