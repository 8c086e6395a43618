// From a text to its tokens: the word list, what stands at a place, and the walk over the text.
#![tactic(auto)]

ghost use mathlib.Core.List.{[]};
ghost use Rattle.std.specs.Prelude.{false, ◌≡◌, ◌+◌, ◌<◌, ◌≤◌, min, length, drop, set};
ghost use Rattle.intervals.specs.Interval.{elem};
ghost use Rattle.token.specs.Token.{token as token_of, Room, Untouched};
ghost use Rattle.utf8.specs.Utf8.{begins, char_at};
ghost use Rattle.lexer.specs.Words.{is_letter, run_end, word_by_ends};
ghost use Rattle.lexer.specs.Lexer.{end_of, raised_numerals, place_in, digit_of, sign_of, sign_head, word_head, two_digits, one_digit, number_head, number_by, head_by, head_of, size_of, lex};
ghost use Rattle.lexer.specs.declared.Match.{Match};
ghost use Rattle.lexer.specs.State.{other_than, found_word, digit_in_or, bytes_in_or, digit_found, one_head, word_rows, row_at, word_at, last_end, longest_word, place_down, scan, plan, plan_of, Inserted, Emitted, Scannable, Went, Written, Scanned};
ghost use Rattle.utf8.specs.declared.Found.TheVariants as utf8;

use token::{
    AUG, COMMA, DIM, EOF, FLAT, HALF_DIM, HYPHEN, ILLEGAL, LPARENT, MAJ, MAJ7, RPARENT, SHARP,
    SLASH, Token,
};
use utf8::Found;

// A word of `from_string`: its letters, filled up to ten bytes; how many they are; the number of its type; and the place of the next one to
// try: as long and with the same first letter, or, where there is none, shorter; 55 for none. Walked by place, so that only the words with
// the text's first letter are tried (docs/DECISIONS.md); filled up, so that the table is one piece of memory.
#[derive(Clone, Copy)]
pub struct Row(pub [u8; 10], pub u8, pub u8, pub u8);

// The numbers of the types that only words have; a note has this one and its letter, from C on.
const ADD: u8 = 8;

const OMIT: u8 = 9;

const ALT: u8 = 10;

const SUS: u8 = 11;

const MINOR: u8 = 12;

const BASS: u8 = 20;

const NOTE: u8 = 64;

// The words. What fills a row's text is not looked at; it counts the places.
static WORDS: [Row; 55] = [
    Row(*b"BASS456789", 4, BASS, 1),
    Row(*b"Bass456789", 4, BASS, 49),
    Row(*b"bass456789", 4, BASS, 23),
    Row(*b"MAJ3456789", 3, MAJ, 4),
    Row(*b"Maj3456789", 3, MAJ, 13),
    Row(*b"maj3456789", 3, MAJ, 15),
    Row(*b"MAJOR56789", 5, MAJ, 7),
    Row(*b"Major56789", 5, MAJ, 16),
    Row(*b"major56789", 5, MAJ, 18),
    Row(*b"MA23456789", 2, MAJ, 10),
    Row(*b"Ma23456789", 2, MAJ, 19),
    Row(*b"ma23456789", 2, MAJ, 21),
    Row(*b"M123456789", 1, MAJ, 55),
    Row(*b"MIN3456789", 3, MINOR, 14),
    Row(*b"Min3456789", 3, MINOR, 9),
    Row(*b"min3456789", 3, MINOR, 11),
    Row(*b"MINOR56789", 5, MINOR, 17),
    Row(*b"Minor56789", 5, MINOR, 3),
    Row(*b"minor56789", 5, MINOR, 5),
    Row(*b"MI23456789", 2, MINOR, 20),
    Row(*b"Mi23456789", 2, MINOR, 12),
    Row(*b"mi23456789", 2, MINOR, 22),
    Row(*b"m123456789", 1, MINOR, 55),
    Row(*b"b123456789", 1, FLAT, 55),
    Row(*b"SUS3456789", 3, SUS, 25),
    Row(*b"Sus3456789", 3, SUS, 55),
    Row(*b"sus3456789", 3, SUS, 55),
    Row(*b"DIM3456789", 3, DIM, 28),
    Row(*b"Dim3456789", 3, DIM, 51),
    Row(*b"dim3456789", 3, DIM, 55),
    Row(*b"diminished", 10, DIM, 29),
    Row(*b"ALT3456789", 3, ALT, 32),
    Row(*b"Alt3456789", 3, ALT, 34),
    Row(*b"alt3456789", 3, ALT, 36),
    Row(*b"AUG3456789", 3, AUG, 35),
    Row(*b"Aug3456789", 3, AUG, 37),
    Row(*b"aug3456789", 3, AUG, 39),
    Row(*b"ADD3456789", 3, ADD, 38),
    Row(*b"Add3456789", 3, ADD, 48),
    Row(*b"add3456789", 3, ADD, 55),
    Row(*b"O123456789", 1, DIM, 55),
    Row(*b"o123456789", 1, DIM, 55),
    Row(*b"OMIT456789", 4, OMIT, 43),
    Row(*b"Omit456789", 4, OMIT, 40),
    Row(*b"omit456789", 4, OMIT, 41),
    Row(*b"NO23456789", 2, OMIT, 46),
    Row(*b"No23456789", 2, OMIT, 55),
    Row(*b"no23456789", 2, OMIT, 55),
    Row(*b"A123456789", 1, NOTE + 5, 55),
    Row(*b"B123456789", 1, NOTE + 6, 55),
    Row(*b"C123456789", 1, NOTE, 55),
    Row(*b"D123456789", 1, NOTE + 1, 55),
    Row(*b"E123456789", 1, NOTE + 2, 55),
    Row(*b"F123456789", 1, NOTE + 3, 55),
    Row(*b"G123456789", 1, NOTE + 4, 55),
];

// The longest word has so many letters (`diminished`).
const LONGEST_WORD: usize = 10;

// The word that was found: its length, and the number of its type.
#[derive(Clone, Copy)]
pub struct Match {
    pub len: usize,
    pub kind: u8,
}

// What stands at a place of the text: a space; a sign or a word with the number of its type and its bytes; a number with the number of its
// type, its length, which is its count of digits, and its bytes; a digit of no number with its bytes.
#[derive(Clone, Copy)]
pub enum Head {
    Space,
    Sign(u8, usize),
    Word(u8, usize),
    Number(u8, u16, usize),
    Digit(usize),
}

// The place in the text and the count of tokens; those from `held` on are the Illegal digits of a run that goes on.
#[derive(Clone, Copy)]
pub struct Scan {
    pub at: usize,
    pub held: usize,
    pub count: usize,
}

// A token to add, and its place among the tokens.
#[derive(Clone, Copy)]
pub struct Added {
    pub place: usize,
    pub token: Token,
}

// What a head adds, and the state after it.
#[derive(Clone, Copy)]
pub struct Plan {
    pub added: Option<Added>,
    pub next: Scan,
}

// The word list. The table is named here alone, since all that follows it in a function is proved with its numbers in view.
fn word_list() -> &'static [Row; 55]
    ensures { result.now ≡ word_rows }
{
    &WORDS
}

// Word i.
fn word_row(i: usize) -> &'static Row
    requires { i < 55 }
    ensures { result.now ≡ row_at i }
{
    &word_list()[i]
}

// The place of the next word to try: the definition has 55 for none, and so has the table.
fn next_word(next: u8) -> Option<usize>
    ensures { result ≡ other_than 55 next }
{
    if next == 55 {
        return None;
    }
    Some(usize::from(next))
}

// Does word i stand at a place of the text? No word passes the last end that is tried.
fn stands(i: usize, text: &[u8], at: usize, last: usize) -> bool
    requires { (i < 55) × (at ≤ length text.now) × (last ≡ last_end text.now at) }
    ensures { result ≡ begins (word_at i).text (drop at text.now) }
{
    let Row(letters, len, ..) = word_row(i);
    let letters = &letters[..usize::from(*len)];
    let run = &text[at..last];
    run.starts_with(letters)
}

// The place of the longest word that begins with a letter, the first of such.
#[tactic(auto, unfolding(crate::specs::State::place_down, crate::specs::State::place_of, crate::specs::Words::words))]
fn first_word(b: u8) -> Option<usize>
    ensures { result ≡ other_than 55 (place_down b longest_word) }
{
    match b {
        b'A' => Some(31),
        b'B' => Some(0),
        b'C' => Some(50),
        b'D' => Some(27),
        b'E' => Some(52),
        b'F' => Some(53),
        b'G' => Some(54),
        b'M' => Some(6),
        b'N' => Some(45),
        b'O' => Some(42),
        b'S' => Some(24),
        b'a' => Some(33),
        b'b' => Some(2),
        b'd' => Some(30),
        b'm' => Some(8),
        b'n' => Some(47),
        b'o' => Some(44),
        b's' => Some(26),
        _ => None,
    }
}

#[tactic(auto, unfolding(crate::specs::Words::is_letter))]
fn is_letter(b: u8) -> bool
    ensures { result ≡ is_letter b }
{
    matches!(b, b'A'..=b'Z' | b'a'..=b'z')
}

// Where the letter run at a place of the text ends.
fn run_end(text: &[u8], at: usize) -> usize
    requires { at ≤ length text.now }
    ensures { result ≡ at + run_end (drop at text.now) }
{
    let rest = &text[at..];
    at + rest
        .iter()
        .position(|b| !is_letter(*b))
        .unwrap_or(rest.len())
}

// The last end to try from a place of a letter run that ends at `end`.
#[tactic(auto, using(crate::proofs::Chains::longest_is))]
fn last_end(at: usize, end: usize) -> usize
    requires { at ≤ 256 }
    ensures { result ≡ min end (at + longest_word) }
{
    end.min(at + LONGEST_WORD)
}

// The word at a place of a letter run that ends at `end`, by trying ends from the last one down: the words with the letter that stands
// there come the longest first, so that the first one that stands there is it.
fn word_by_ends(text: &[u8], at: usize, end: usize) -> Option<Match>
    requires { (at < length text.now) × (length text.now ≤ 256) × (end ≡ at + run_end (drop at text.now)) }
    ensures { result ≡ found_word (word_by_ends (drop at text.now)) }
{
    let last = last_end(at, end);
    let mut next = first_word(text[at]);
    while let Some(i) = next {
        let Row(_, len, kind, after) = *word_row(i);
        if stands(i, text, at, last) {
            return Some(Match {
                len: usize::from(len),
                kind,
            });
        }
        next = next_word(after);
    }
    None
}

// The digit that one of the raised numerals ⁰ ¹ ² ³ ⁴ ⁵ ⁶ ⁷ ⁸ ⁹ is.
fn raised_digit(c: u32) -> Option<u8>
    ensures { result ≡ other_than 10 (place_in raised_numerals c) }
{
    match c {
        0x2070 => Some(0),
        0xB9 => Some(1),
        0xB2 => Some(2),
        0xB3 => Some(3),
        0x2074 => Some(4),
        0x2075 => Some(5),
        0x2076 => Some(6),
        0x2077 => Some(7),
        0x2078 => Some(8),
        0x2079 => Some(9),
        _ => None,
    }
}

// The digit that a character is, plain or raised.
#[tactic(auto, unfolding(crate::specs::Lexer::digit_of))]
fn digit_of(c: u32) -> Option<u8>
    ensures { result ≡ other_than 10 (digit_of c) }
{
    match c {
        48..=57 => Some((c - 48) as u8),
        _ => raised_digit(c),
    }
}

// The number of a sign's type, if a character is one: # ♯ ♭ △ ^ Δ - ° ø / + , ( ) in this order.
#[tactic(auto, unfolding(crate::specs::Lexer::sign_of))]
fn sign_of(c: u32) -> Option<u8>
    ensures { result ≡ other_than 0 (sign_of c) }
{
    match c {
        0x23 | 0x266F => Some(SHARP),
        0x266D => Some(FLAT),
        0x25B3 | 0x5E | 0x394 => Some(MAJ7),
        0x2D => Some(HYPHEN),
        0xB0 => Some(DIM),
        0xF8 => Some(HALF_DIM),
        0x2F => Some(SLASH),
        0x2B => Some(AUG),
        0x2C => Some(COMMA),
        0x28 => Some(LPARENT),
        0x29 => Some(RPARENT),
        _ => None,
    }
}

fn sign_head(c: u32, n: usize) -> Head
    ensures { result ≡ sign_head c n }
{
    match sign_of(c) {
        Some(k) => Head::Sign(k, n),
        None => Head::Word(ILLEGAL, n),
    }
}

fn word_head(word: Option<Match>) -> Head
    ensures { (m : Match) → word ≡ found_word m → result ≡ word_head m }
{
    match word {
        Some(m) => Head::Word(m.kind, m.len),
        None => Head::Word(ILLEGAL, 1),
    }
}

// The numbers of two digits, and those of one.
fn is_two(v: u8) -> bool
    ensures { result ≡ elem v two_digits }
{
    matches!(v, 11 | 13)
}

fn is_one(d: u8) -> bool
    ensures { result ≡ elem d one_digit }
{
    matches!(d, 2..=7 | 9)
}

// The number of one digit: d, of n bytes.
fn one_head(d: u8, n: usize) -> Head
    requires { (d ≤ 10) × (n ≤ 256) }
    ensures { result ≡ one_head d n }
{
    if is_one(d) {
        return Head::Number(32 + d, 1, n);
    }
    Head::Digit(n)
}

// The number that two digits begin with: d, of n bytes, and the one that may stand behind it, with its bytes.
fn number_head(d: u8, n: usize, behind: Option<(u8, usize)>) -> Head
    requires { (d < 10) × (digit_in_or behind ≤ 10) × (n ≤ 256) × (bytes_in_or behind ≤ 256) }
    ensures { result ≡ number_head d n (digit_in_or behind) (bytes_in_or behind) }
{
    match behind {
        Some((e, m)) if is_two(10 * d + e) => Head::Number(32 + 10 * d + e, 2, n + m),
        _ => one_head(d, n),
    }
}

// The digit at a place of the text, and its bytes.
fn digit_at(text: &[u8], at: usize) -> Option<(u8, usize)>
    ensures { result ≡ digit_found (char_at text.now at) }
{
    let Found::Char(c, n) = utf8::char_at(text, at) else {
        return None;
    };
    Some((digit_of(c)?, n))
}

// What the character c, of n bytes, begins at a place of the text, if it is no letter.
fn head_by(text: &[u8], at: usize, c: u32, n: usize) -> Head
    requires { (is_letter c ≡ false) × (at + n ≤ length text.now) × (length text.now ≤ 256) }
    ensures { result ≡ head_by (utf8.Char c n) (drop at text.now) }
{
    // The space first, which is common and by itself.
    if c == 32 {
        return Head::Space;
    }
    match digit_of(c) {
        Some(d) => number_head(d, n, digit_at(text, at + n)),
        None => sign_head(c, n),
    }
}

// What stands at a place of the text that has no letter.
#[tactic(auto, unfolding(crate::specs::Lexer::head_of))]
fn head_at(text: &[u8], at: usize) -> Head
    requires { (run_end (drop at text.now) ≡ 0) × (at < length text.now) × (length text.now ≤ 256) }
    ensures { result ≡ head_of (drop at text.now) }
{
    match utf8::char_at(text, at) {
        Found::Char(c, n) => head_by(text, at, c, n),
        Found::Bad | Found::End => Head::Word(ILLEGAL, 1),
    }
}

fn scan_at(at: usize, held: usize, count: usize) -> Scan
    ensures { result ≡ scan at held count }
{
    Scan { at, held, count }
}

fn add_at(place: usize, kind: u8, pos: u16, len: u16, next: Scan) -> Plan
    ensures { result ≡ plan place (token_of kind pos len) next }
{
    let token = Token { kind, pos, len };
    Plan {
        added: Some(Added { place, token }),
        next,
    }
}

// What a head adds to the tokens, at its first byte: a sign or a word comes last, after which no digit is held; a number or a digit of none
// comes before the held digits.
fn plan_for(h: Head, s: Scan) -> Plan
    requires { (s.at + size_of h ≤ 256) × (s.held ≤ s.count) × (s.count ≤ 256) }
    ensures { result ≡ plan_of h s }
{
    let Scan { at, held, count: n } = s;
    let p = at as u16;
    match h {
        Head::Space => Plan {
            added: None,
            next: scan_at(at + 1, n, n),
        },
        Head::Sign(k, b) => add_at(n, k, p, 1, scan_at(at + b, n + 1, n + 1)),
        Head::Word(k, b) => add_at(n, k, p, b as u16, scan_at(at + b, n + 1, n + 1)),
        Head::Number(k, l, b) => add_at(held, k, p, l, scan_at(at + b, held + 1, n + 1)),
        Head::Digit(b) => add_at(held, ILLEGAL, p, 1, scan_at(at + b, held, n + 1)),
    }
}

// Puts a token at a place of n tokens, before those from there on.
fn insert(tokens: &mut [Token], place: usize, n: usize, token: Token)
    requires { (place ≤ n) × Room (n + 1) tokens.old }
    ensures { Inserted token place n tokens.old tokens.new }
{
    // One by one: `rotate_right` calls memmove, and of the C library the linked library needs memcpy and memset alone.
    for j in (place..n).rev() {
        tokens[j + 1] = tokens[j];
    }
    tokens[place] = token;
}

// Adds what a head gives to the tokens.
fn emit(tokens: &mut [Token], h: Head, s: Scan) -> Scan
    requires { (s.at + size_of h ≤ 256) × (s.held ≤ s.count) × (s.count ≤ 256) × Room (s.count + 1) tokens.old }
    ensures { Emitted h s result tokens.old tokens.new }
{
    let plan = plan_for(h, s);
    if let Some(a) = plan.added {
        insert(tokens, a.place, s.count, a.token);
    }
    plan.next
}

// Cuts a letter run that ends at `end`: from each start the longest word, or an Illegal letter.
fn parse_string(text: &[u8], tokens: &mut [Token], start: Scan, end: usize) -> Scan
    requires { Scannable text.now start tokens.old × (end ≡ start.at + run_end (drop start.at text.now)) }
    ensures { Went text.now start result tokens.old tokens.new × (end ≤ result.at) }
{
    let mut s = start;
    // A step is as long as the word that it found.
    while s.at < end {
        let h = word_head(word_by_ends(text, s.at, end));
        s = emit(tokens, h, s);
    }
    s
}

// Scans what stands at a place of the text: a letter run, or one character or number.
fn scan_token(text: &[u8], tokens: &mut [Token], s: Scan) -> Scan
    requires { Scannable text.now s tokens.old × (s.at < length text.now) }
    ensures { Went text.now s result tokens.old tokens.new × (s.at < result.at) }
{
    if is_letter(text[s.at]) {
        let end = run_end(text, s.at + 1);
        return parse_string(text, tokens, s, end);
    }
    emit(tokens, head_at(text, s.at), s)
}

// Writes the tokens of a text but for End; their number is returned.
fn scan_text(text: &[u8], tokens: &mut [Token]) -> usize
    requires { (length text.now ≤ 256) × Room (length text.now) tokens.old }
    ensures { Written (lex 0 [] 0 text.now) result tokens.old tokens.new × (result ≤ length text.now) }
{
    let mut s = Scan {
        at: 0,
        held: 0,
        count: 0,
    };
    // A step is as long as what it found.
    while s.at < text.len() {
        s = scan_token(text, tokens, s);
    }
    s.count
}

// Puts the End of a text behind n tokens.
fn put_end(text: &[u8], tokens: &mut [Token], n: usize)
    requires { (length text.now ≤ 256) × (n < length tokens.old) }
    ensures { tokens.new ≡ set tokens.old n (end_of text.now) }
{
    let end = text.len() + 1;
    tokens[n] = Token {
        kind: EOF,
        pos: end as u16,
        len: 0,
    };
}

// Writes the tokens of a text of at most 256 bytes, and End after them; their number is returned. What lies beyond them is untouched.
// The bound stands in contracts, here and above, and in no type: the caller's text is a slice.
pub fn scan_tokens(text: &[u8], tokens: &mut [Token]) -> usize
    requires { (length text.now ≤ 256) × Room (length text.now + 1) tokens.old }
    ensures scanned { Scanned text.now result tokens.old tokens.new }
    ensures untouched { Untouched result tokens.old tokens.new }
{
    let n = scan_text(text, tokens);
    put_end(text, tokens, n);
    n + 1
}
