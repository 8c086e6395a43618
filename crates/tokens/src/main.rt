// Prints the folded tokens of each line of standard input: the line's number, 0 (2 for a text above 256 bytes, 3 for one that is not
// UTF-8, and then nothing more), the count of tokens, and for each its type's place among the 23, what it carries, its position and its
// length. Every number is right-justified in four columns.
#![tactic(auto)]

use columns::{answer_lines, put};
use lines::Lines;
use output::Output;
use std::io;
use token::Token;

// Appends the four numbers of a token: a note's type is 0 and an extension's 7, and these two carry a number.
fn put_token(out: &mut Output, token: Token) {
    let (tag, value) = match token.kind {
        64.. => (0, token.kind - 64),
        32..=63 => (7, token.kind - 32),
        _ => (token.kind, 0),
    };
    put(out, u64::from(tag));
    put(out, u64::from(value));
    put(out, u64::from(token.pos));
    put(out, u64::from(token.len));
}

// Appends the count of the tokens, and each.
fn put_tokens(out: &mut Output, tokens: &[Token]) {
    put(out, tokens.len() as u64);
    for token in tokens {
        put_token(out, *token);
    }
}

// Appends the number of a text's answer, and the tokens of a text that has any.
fn put_answer(out: &mut Output, text: &[u8]) {
    if 256 < text.len() {
        return put(out, 2);
    }
    if !utf8::well_formed(text) {
        return put(out, 3);
    }
    let mut tokens = [Token::default(); 257];
    let n = reader::tokenize(text, &mut tokens);
    put(out, 0);
    put_tokens(out, &tokens[..n]);
}

fn main(rt: HostRuntime) -> io::Result<()> {
    let mut waiting = [0u8; 65536];
    let mut line = [0u8; 257];
    let mut block = [0u8; 65536];
    answer_lines(
        &mut Lines::new(&mut block, &mut line),
        &mut rt.stdin(),
        &mut rt.stdout(),
        &mut Output::new(&mut waiting),
        put_answer,
    )
}
