// What the token step decides: what each of the 23 types of tokens does, and what changes inside a bracket.
ghost use Rattle.std.specs.Prelude.{◌≡◌, ◌+◌, ◌<◌, pos};
ghost use Rattle.std.specs.Int.Signed.{mag, lt_z};
ghost use Rattle.step.specs.Effect.{pushing, taking};
ghost use Rattle.step.specs.Step.{interval_alone, sus_allows, interval_in_sus, add_interval, placing, modifier_step, is_power, number_step, aug_step, hyphen_step, sus_step, omit_target, omit_step, add_target, add_signed, add_step, six_nine, then_end, bass_step, slash_step, open_step, matched_close, unmatched_close, comma_step, step_of, inside_of};

use crate::context::{Context, GroupKind};
use crate::effect::{Effect, Here, enter, fail, keep, push, push_after_sus, push_two_after_sus};
use crate::interval::from_modifier_extension;
use expression::expression::Exp;
use expression::parser_error::ParserError;
use intervals::{
    AUGMENTED_FOURTH, DIMINISHED_FIFTH, MAJOR_SECOND, MAJOR_SEVENTH, MAJOR_THIRD, MINOR_SECOND,
    NINTH, PERFECT_FIFTH, PERFECT_FOURTH,
};
use lookahead::{Ahead, Next};
use note::{Note, RootModifier};
use token::{Bracket, TokenType};

fn is_inside(h: Here) -> bool
    ensures { result ≡ lt_z (pos 0) h.count }
{
    0 < h.count
}

// An interval outside sus and active groups: 4 is sus, #4 is not allowed.
fn interval_alone(h: Here, interval: u8, pos: u16) -> Effect
    ensures { result ≡ interval_alone h interval pos }
{
    match interval {
        PERFECT_FOURTH => push(h, Exp::Sus(PERFECT_FOURTH), 0),
        AUGMENTED_FOURTH => fail(h, ParserError::InvalidExtension(pos), 0),
        _ => push(h, Exp::Extension(interval, pos), 0),
    }
}

fn allowed_sus_interval(interval: u8) -> bool
    ensures { result ≡ sus_allows interval }
{
    matches!(
        interval,
        MINOR_SECOND | MAJOR_SECOND | PERFECT_FOURTH | AUGMENTED_FOURTH
    )
}

// Behind sus, an interval that it does not take leaves it the fourth.
fn interval_in_sus(h: Here, interval: u8, pos: u16) -> Effect
    ensures { result ≡ interval_in_sus h interval pos }
{
    if allowed_sus_interval(interval) {
        push_after_sus(h, Exp::Sus(interval))
    } else {
        push_two_after_sus(h, Exp::Sus(PERFECT_FOURTH), Exp::Extension(interval, pos))
    }
}

fn add_interval(h: Here, interval: u8, pos: u16) -> Effect
    ensures { result ≡ add_interval h.context h interval pos }
{
    match h.context {
        Context::Sus => interval_in_sus(h, interval, pos),
        Context::Group(g) if g.active => push(h, g.kind.member(interval, pos), 0),
        _ => interval_alone(h, interval, pos),
    }
}

// The interval, where there is one; else an error at `wrong`.
fn place(h: Here, interval: Option<u8>, pos: u16, wrong: u16) -> Effect
    ensures { result ≡ placing h interval pos wrong }
{
    match interval {
        Some(interval) => add_interval(h, interval, pos),
        None => fail(h, ParserError::InvalidExtension(wrong), 0),
    }
}

fn modifier(m: RootModifier, h: Here, next: Next) -> Effect
    requires { h.pos + 1 < 65536 }
    ensures { result ≡ modifier_step m h next }
{
    match next {
        Next::Extension(number) => {
            place(h, from_modifier_extension(m, number), h.pos, h.pos + 1).take(1)
        }
        _ => fail(h, ParserError::UnexpectedModifier(h.pos), 0),
    }
}

fn is_power(number: u8, context: Context) -> bool
    ensures { result ≡ is_power number context }
{
    number == 5 && context.is_none()
}

fn extension(number: u8, h: Here) -> Effect
    ensures { result ≡ number_step number h }
{
    if is_power(number, h.context) {
        return push(h, Exp::Power, 0);
    }
    let interval = from_modifier_extension(RootModifier::Natural, number);
    place(h, interval, h.pos, h.pos)
}

fn aug(h: Here, next: Next) -> Effect
    ensures { result ≡ aug_step h next }
{
    let taken = if next.number() == 5 { 1 } else { 0 };
    push(h, Exp::Aug, taken)
}

fn hyphen(h: Here, next: Next) -> Effect
    ensures { result ≡ hyphen_step h next }
{
    if next.number() == 5 {
        push(h, Exp::Extension(DIMINISHED_FIFTH, h.pos), 1)
    } else {
        push(h, Exp::Minor, 0)
    }
}

fn sus(h: Here, next: Next) -> Effect
    ensures { result ≡ sus_step h next }
{
    if next.is_extension() || next.is_sign() {
        enter(h, Context::Sus)
    } else {
        push_after_sus(h, Exp::Sus(PERFECT_FOURTH))
    }
}

fn omit_target(h: Here, next: Next) -> Effect
    requires { h.pos + h.len < 65536 }
    ensures { result ≡ omit_target h next }
{
    match next.number() {
        5 => push(h, Exp::Omit(PERFECT_FIFTH, h.pos + h.len), 1),
        3 => push(h, Exp::Omit(MAJOR_THIRD, h.pos + h.len), 1),
        _ => fail(h, ParserError::IllegalOrMissingOmitTarget(h.pos, h.len), 0),
    }
}

fn omit(h: Here, next: Next) -> Effect
    requires { h.pos + h.len < 65536 }
    ensures { result ≡ omit_step h next }
{
    let group = h.context.start_group(GroupKind::Omit, is_inside(h));
    omit_target(h, next).set_context(group)
}

// What an Add does with the token after its sign m, the k-th after it, at `at`.
fn add_target(k: usize, m: RootModifier, h: Here, next: Next, at: u16) -> Effect
    requires { (h.pos + h.len < 65536) × (k < 1000) }
    ensures { result ≡ add_target k m h next at }
{
    match next {
        Next::Extension(number) => match from_modifier_extension(m, number) {
            Some(interval) => push(h, Exp::Add(interval, at), k + 1),
            None => fail(h, ParserError::InvalidExtension(h.pos), k + 1),
        },
        Next::Maj7 => push(h, Exp::Add(MAJOR_SEVENTH, h.pos + h.len), k + 1),
        _ => fail(h, ParserError::MissingAddTarget(h.pos, h.len), k),
    }
}

fn add_signed(h: Here, a: Ahead) -> Effect
    requires { h.pos + h.len < 65536 }
    ensures { result ≡ add_signed h a }
{
    if a.first.is_sign() {
        add_target(1, a.first.sign(), h, a.second, a.pos2)
    } else {
        add_target(0, RootModifier::Natural, h, a.first, a.pos)
    }
}

fn add(h: Here, a: Ahead) -> Effect
    requires { h.pos + h.len < 65536 }
    ensures { result ≡ add_step h a }
{
    let group = h.context.start_group(GroupKind::Add, is_inside(h));
    add_signed(h, a).set_context(group)
}

// A 9 after a slash whose last expression is the extension 6.
fn is_six_nine(h: Here, next: Next) -> bool
    ensures { result ≡ six_nine h next }
{
    next.number() == 9 && h.six
}

// After 6/9 or a bass only End may come.
fn last(h: Here, next: Next, e: Exp, taken: usize) -> Effect
    ensures { result ≡ then_end h next (taking taken (pushing h e)) }
{
    let after = push(h, e, taken);
    if next.is_eof() {
        after
    } else {
        after.set_error(ParserError::IllegalSlashNotation(h.pos))
    }
}

fn bass(note: Note, h: Here, a: Ahead) -> Effect
    ensures { result ≡ bass_step note h a }
{
    if a.second.is_sign() {
        last(h, a.third, Exp::SlashBass(note), 2)
    } else {
        last(h, a.second, Exp::SlashBass(note), 1)
    }
}

// A slash always takes the token after it.
fn slash(h: Here, a: Ahead) -> Effect
    ensures { result ≡ slash_step h a }
{
    if is_six_nine(h, a.first) {
        return last(h, a.second, Exp::Add(NINTH, a.pos), 1);
    }
    match a.first.note(a.second.sign()) {
        Some(note) => bass(note, h, a),
        None => fail(h, ParserError::IllegalSlashNotation(h.pos), 1),
    }
}

// An opening sign sets the state to none.
fn lparen(h: Here) -> Effect
    requires { mag h.count < 1000 }
    ensures { result ≡ open_step h }
{
    Effect {
        count: h.count + 1,
        context: Context::None,
        ..keep(h)
    }
}

// A closing sign of a bracket lowers the count, and does nothing else.
fn close(h: Here) -> Effect
    requires { mag h.count < 1000 }
    ensures { result ≡ matched_close h }
{
    Effect {
        count: h.count - 1,
        ..keep(h)
    }
}

// A closing sign outside any bracket is an error too, and sets the state to none.
fn rparen(h: Here) -> Effect
    requires { mag h.count < 1000 }
    ensures { result ≡ unmatched_close h }
{
    close(h)
        .set_error(ParserError::UnexpectedClosingParenthesis(h.pos))
        .set_context(Context::None)
}

fn comma(h: Here) -> Effect
    ensures { result ≡ comma_step h }
{
    enter(h, h.context.on_comma())
}

// What a token does outside any bracket.
pub fn process_token(kind: TokenType, h: Here, a: Ahead) -> Effect
    requires { (h.pos + h.len < 65535) × (mag h.count < 1000) }
    ensures { result ≡ step_of kind h a }
{
    match kind {
        TokenType::Note(_) => fail(h, ParserError::UnexpectedNote(h.pos), 0),
        TokenType::Sharp => modifier(RootModifier::Sharp, h, a.first),
        TokenType::Flat => modifier(RootModifier::Flat, h, a.first),
        TokenType::Aug => aug(h, a.first),
        TokenType::Dim => push(h, Exp::Dim, 0),
        TokenType::Dim7 => push(h, Exp::Dim7, 0),
        TokenType::HalfDim => push(h, Exp::HalfDim, 0),
        TokenType::Extension(n) => extension(n, h),
        TokenType::Add => add(h, a),
        TokenType::Omit => omit(h, a.first),
        TokenType::Alt => push(h, Exp::Alt, 0),
        TokenType::Sus => sus(h, a.first),
        TokenType::Minor => push(h, Exp::Minor, 0),
        TokenType::Hyphen => hyphen(h, a.first),
        TokenType::Maj => push(h, Exp::Maj, 0),
        TokenType::Maj7 => push(h, Exp::Maj7, 0),
        TokenType::Slash => slash(h, a),
        TokenType::LParent => lparen(h),
        TokenType::RParent => rparen(h),
        TokenType::Comma => comma(h),
        TokenType::Bass => push(h, Exp::Bass, 0),
        TokenType::Illegal => fail(h, ParserError::IllegalToken(h.pos), 0),
        TokenType::Eof => keep(h),
    }
}

// What a token does that is `bracket` to the bracket opened at `pos`. Outside any bracket every token is Other.
pub fn process_inside(bracket: Bracket, pos: u16, kind: TokenType, h: Here, a: Ahead) -> Effect
    requires { (h.pos + h.len < 65535) × (mag h.count < 1000) }
    ensures { result ≡ inside_of bracket pos kind h a }
{
    match bracket {
        Bracket::Closes => close(h),
        Bracket::Ends => fail(h, ParserError::MissingClosingParenthesis(pos), 0),
        Bracket::Opens => lparen(h).set_error(ParserError::NestedParenthesis(pos)),
        Bracket::Other => process_token(kind, h, a),
    }
}
