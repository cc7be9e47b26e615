//! The lines of refusals. They take no memory.
ghost use Rattle.std.specs.Prelude.{◌≡◌, ◌≤◌, ◌+◌, ◌++◌, length};
ghost use Rattle.arrayvec.specs.ArrayString.{array_string_len};
ghost use Rattle.prv_cli.specs.Refusals.{who_text, lex_text, what_text, lexer_text, parser_text, names_text, version_text, side_text, bound_text, pair_text, refusal_text, refusal_line};

use crate::refusal::{Bound, Refusal, Who};
use arrayvec::ArrayString;
use itoa::{Buffer, Integer};
use prv_lex::{LexError, LexWhy};
use prv_marks::{PairError, Side};
use prv_names::{NameError, What};
use prv_parse::ParseError;
use prv_version::VersionError;

/// Room for each line: two numbers of at most 40 digits and fewer than 60 other bytes.
const LINE_BYTES: usize = 160;

/// The line of a refusal, as it is written.
pub type Line = ArrayString<LINE_BYTES>;

/// The line of a refusal.
pub fn line_of(refusal: &Refusal) -> Line
    ensures { result.bytes ≡ refusal_line refusal.now }
{
    let mut line = Line::new();
    line.push_str("prv: ");
    push_refusal(&mut line, refusal);
    line.push_str("\n");
    line
}

fn push_refusal(line: &mut Line, refusal: &Refusal)
    requires { array_string_len line.old ≤ 5 }
    ensures text { line.new.bytes ≡ line.old.bytes ++ refusal_text refusal.now }
    ensures short { array_string_len line.new ≤ 150 }
{
    match refusal {
        Refusal::Usage { word } => push_labelled(line, "usage: word ", *word),
        Refusal::Later => line.push_str("later"),
        Refusal::File { who, why } => {
            line.push_str(who_str(*who));
            line.push_str(": ");
            push_version_error(line, why);
        }
        Refusal::Pair(why) => push_pair_error(line, *why),
        Refusal::Inputs { given, wanted } => {
            push_labelled(line, "inputs ", *given);
            push_labelled(line, " wanted ", *wanted);
        }
        Refusal::Slice(bound) => {
            line.push_str("slice ");
            line.push_str(bound_str(*bound));
        }
        Refusal::Read => line.push_str("read fault"),
        Refusal::Write => line.push_str("write fault"),
        Refusal::Memory => line.push_str("memory"),
    }
}

fn push_version_error(line: &mut Line, why: &VersionError)
    requires { array_string_len line.old ≤ 20 }
    ensures text { line.new.bytes ≡ line.old.bytes ++ version_text why.now }
    ensures short { array_string_len line.new ≤ array_string_len line.old + 70 }
{
    match why {
        VersionError::Lex(why) => push_lex_error(line, why),
        VersionError::Parse(why) => push_parse_error(line, why),
        VersionError::Name(why) => push_name_error(line, why),
    }
}

fn push_lex_error(line: &mut Line, why: &LexError)
    requires { array_string_len line.old ≤ 20 }
    ensures text { line.new.bytes ≡ line.old.bytes ++ lexer_text why.now }
    ensures short { array_string_len line.new ≤ array_string_len line.old + 70 }
{
    match why {
        LexError::Refused { place, why } => {
            line.push_str("lex ");
            line.push_str(lex_str(*why));
            push_labelled(line, " at ", *place);
        }
        LexError::Memory => line.push_str("memory"),
    }
}

fn push_parse_error(line: &mut Line, why: &ParseError)
    requires { array_string_len line.old ≤ 20 }
    ensures text { line.new.bytes ≡ line.old.bytes ++ parser_text why.now }
    ensures short { array_string_len line.new ≤ array_string_len line.old + 70 }
{
    match why {
        ParseError::Syntax { place } => push_labelled(line, "syntax at ", *place),
        ParseError::Deep { place } => push_labelled(line, "deep at ", *place),
        ParseError::Memory => line.push_str("memory"),
    }
}

fn push_name_error(line: &mut Line, why: &NameError)
    requires { array_string_len line.old ≤ 20 }
    ensures text { line.new.bytes ≡ line.old.bytes ++ names_text why.now }
    ensures short { array_string_len line.new ≤ array_string_len line.old + 70 }
{
    match why {
        NameError::Unknown { place } => push_labelled(line, "name unknown at ", *place),
        NameError::Twice { place } => push_labelled(line, "name twice at ", *place),
        NameError::NotInScope { place } => push_labelled(line, "name scope at ", *place),
        NameError::TooMany { what, count } => {
            line.push_str("too many ");
            line.push_str(what_str(*what));
            push_labelled(line, " ", *count);
        }
        NameError::Memory => line.push_str("memory"),
    }
}

fn push_pair_error(line: &mut Line, why: PairError)
    requires { array_string_len line.old ≤ 20 }
    ensures text { line.new.bytes ≡ line.old.bytes ++ pair_text why }
    ensures short { array_string_len line.new ≤ array_string_len line.old + 120 }
{
    match why {
        PairError::Params { before, after } => {
            push_two(line, "pair: params ", before, " and ", after);
        }
        PairError::MarkTwice { side, mark } => {
            line.push_str(side_str(side));
            push_labelled(line, ": mark ", mark);
            line.push_str(" twice");
        }
        PairError::MarkInside { side, place } => {
            line.push_str(side_str(side));
            push_labelled(line, ": mark inside mark at ", place);
        }
        PairError::Unmarked { before, after } => {
            push_two(line, "pair: unmarked at ", before, " and ", after);
        }
    }
}

/// Writes a number behind a label.
pub fn push_labelled<I: Integer>(line: &mut Line, label: &str, number: I)
    requires { array_string_len line.old + length label.now ≤ 120 }
    ensures text { line.new.bytes ≡ line.old.bytes ++ (label.now ++ I.text number) }
    ensures short { array_string_len line.new ≤ array_string_len line.old + length label.now + 40 }
{
    line.push_str(label);
    let mut buffer = Buffer::new();
    line.push_str(buffer.format(number));
}

/// Writes two numbers, each behind a label.
fn push_two<I: Integer>(line: &mut Line, label: &str, first: I, link: &str, second: I)
    requires { array_string_len line.old + length label.now + length link.now ≤ 70 }
    ensures text { line.new.bytes ≡ line.old.bytes ++ (label.now ++ I.text first ++ link.now ++ I.text second) }
    ensures short { array_string_len line.new ≤ array_string_len line.old + length label.now + length link.now + 80 }
{
    push_labelled(line, label, first);
    push_labelled(line, link, second);
}

fn who_str(who: Who) -> &'static str
    ensures text { result.now ≡ who_text who }
    ensures short { length result.now ≤ 4 }
{
    match who {
        Who::Old => "old",
        Who::New => "new",
        Who::Only => "file",
    }
}

fn side_str(side: Side) -> &'static str
    ensures text { result.now ≡ side_text side }
    ensures short { length result.now ≤ 3 }
{
    match side {
        Side::Before => "old",
        Side::After => "new",
    }
}

fn bound_str(bound: Bound) -> &'static str
    ensures text { result.now ≡ bound_text bound }
    ensures short { length result.now ≤ 8 }
{
    match bound {
        Bound::Nodes => "nodes",
        Bound::Literals => "literals",
    }
}

fn lex_str(why: LexWhy) -> &'static str
    ensures text { result.now ≡ lex_text why }
    ensures short { length result.now ≤ 7 }
{
    match why {
        LexWhy::Long => "long",
        LexWhy::Byte => "byte",
        LexWhy::Number => "number",
        LexWhy::NameLong => "name",
        LexWhy::Comment => "comment",
    }
}

fn what_str(what: What) -> &'static str
    ensures text { result.now ≡ what_text what }
    ensures short { length result.now ≤ 6 }
{
    match what {
        What::Params => "params",
        What::Vars => "vars",
        What::Stmts => "stmts",
    }
}
