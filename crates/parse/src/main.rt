// Prints what the parser finds in each line of standard input: the line's number, 0 (2 for a text above 256 bytes, 3 for one that is not
// UTF-8, and then nothing more), the root's letter and alteration (-1 and 0 where there is no root), the count of expressions and three
// numbers for each (kind, interval or letter, position or alteration), the count of errors and four numbers for each. Every number is
// right-justified in four columns.
#![tactic(auto)]

ghost use Rattle.std.specs.Prelude.{◌≤◌, length};

use columns::{answer_lines, put, put_errors, put_note, put_note_or_none};
use expression::expression::Exp;
use lines::Lines;
use output::Output;
use std::io;
use token::Token;

// Appends the three numbers of an expression; kind 14 is the slash bass.
fn put_exp(out: &mut Output, exp: Exp) {
    if let Exp::SlashBass(note) = exp {
        put(out, 14);
        return put_note(out, note);
    }
    let number = u32::from(exp);
    put(out, u64::from(number % 16));
    put(out, u64::from(number / 16 % 256));
    put(out, u64::from(number / 4096));
}

// Appends the count of the expressions, and each.
fn put_exps(out: &mut Output, exps: &[Exp]) {
    put(out, exps.len() as u64);
    for exp in exps {
        put_exp(out, *exp);
    }
}

// Appends what the parser finds in a text of at most 256 bytes.
fn put_parse(out: &mut Output, text: &[u8])
    requires { length text.now ≤ 256 }
{
    let mut tokens = [Token::default(); 257];
    let mut errs = [0u16; 1028];
    let mut exps = [Exp::Power; 257];
    let n = reader::tokenize(text, &mut tokens);
    let ast = parser::parser::parse(&tokens[..n], &mut errs, &mut exps);
    put_note_or_none(out, ast.root);
    put_exps(out, &exps[..ast.exps]);
    put_errors(out, &errs[..4 * ast.errors]);
}

// Appends the number of a text's answer, and what is found in a text that is read.
fn put_answer(out: &mut Output, text: &[u8]) {
    if 256 < text.len() {
        return put(out, 2);
    }
    if !utf8::well_formed(text) {
        return put(out, 3);
    }
    put(out, 0);
    put_parse(out, text);
}

fn main(rt: HostRuntime) -> io::Result<()> {
    let mut waiting = [0u8; 65536];
    let mut line = [0u8; 257];
    let mut block = [0u8; 65536];
    answer_lines(
        &mut Lines::new(&mut block, &mut line),
        &mut rt.stdin(),
        &mut rt.stdout(),
        &mut Output::new(&mut waiting),
        put_answer,
    )
}
