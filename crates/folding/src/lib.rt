// Folding of tokens, in place.
#![tactic(auto)]

ghost use Rattle.std.specs.Prelude.{ℕ, ◌≡◌, ◌+◌, ◌^◌, ◌<◌, ◌≤◌, length, set, take};
ghost use Rattle.token.specs.Token.{at as token_at};
ghost use Rattle.folding.specs.Folding.{paired, fold7, count, is_maj, concat, pre_process};
ghost use Rattle.folding.specs.State.{Latest, Joined, Apart, Counted, came, Stepped, Turned, joins_at, TookFirst, Short};

use token::{DIM, DIM7, MAJ, MAJ7, SEVEN, Token};

// How many tokens there are so far, and how many partners and sevens among them are unpaired. They are counted, so that no token is looked
// for where none waits.
#[derive(Clone, Copy, Default)]
pub struct Out {
    pub at: usize,
    pub partners: usize,
    pub sevens: usize,
}

// Which tokens fold: a partner and a 7 make a pair.
#[derive(Clone, Copy)]
struct Fold {
    partner: u8,
    pair: u8,
    ghost apart: { Apart partner pair },
}

const DIMS: Fold = Fold {
    partner: DIM,
    pair: DIM7,
};

const MAJS: Fold = Fold {
    partner: MAJ,
    pair: MAJ7,
};

// The latest place of a token of kind k.
fn latest(tokens: &[Token], k: u8) -> Option<usize>
    ensures { Latest k tokens.now result }
{
    tokens.iter().rposition(|t| t.kind == k)
}

// Token i pairs with token j, in the place of j.
fn pair(tokens: &mut [Token], j: usize, i: usize, kind: u8)
    requires { (j ≤ i) × (i < length tokens.old) }
    ensures { tokens.new ≡ set tokens.old j (paired kind (token_at tokens.old j) (token_at tokens.old i)) }
{
    tokens[j] = Token {
        kind,
        pos: tokens[j].pos.min(tokens[i].pos),
        len: tokens[j].len,
    };
}

// Token i pairs with the latest of kind k among the first w, of which `waiting` are of that kind; where there is none, it comes next.
fn join(tokens: &mut [Token], w: usize, i: usize, k: u8, waiting: usize, r: u8) -> usize
    requires room { (w ≤ i) × (i < length tokens.old) }
    requires waiting_count { waiting ≡ count k (take w tokens.old) }
    ensures { Joined k r i waiting w result tokens.old tokens.new }
{
    if 0 < waiting {
        if let Some(j) = latest(&tokens[..w], k) {
            pair(tokens, j, i, r);
            return w;
        }
    }
    tokens[w] = tokens[i];
    w + 1
}

// A token came, of those of whose kind `own` wait: it pairs with one of the `others`, or waits for one.
fn came(own: usize, others: usize) -> (usize, usize)
    requires { own + 1 < 2 ^ 64 }
    ensures { result ≡ came own others }
{
    if others == 0 {
        (own + 1, 0)
    } else {
        (own, others - 1)
    }
}

// Token i is taken.
fn step(tokens: &mut [Token], fold: Fold, o: Out, i: usize) -> Out
    requires room { (o.at ≤ i) × (i < length tokens.old) }
    requires counted { Counted fold.partner o tokens.old }
    ensures { Stepped fold.partner fold.pair i o result tokens.old tokens.new }
{
    let kind = tokens[i].kind;
    if kind == fold.partner {
        let at = join(tokens, o.at, i, SEVEN, o.sevens, fold.pair);
        let (partners, sevens) = came(o.partners, o.sevens);
        return Out {
            at,
            partners,
            sevens,
        };
    }
    if kind == SEVEN {
        let at = join(tokens, o.at, i, fold.partner, o.partners, fold.pair);
        let (sevens, partners) = came(o.sevens, o.partners);
        return Out {
            at,
            partners,
            sevens,
        };
    }
    tokens[o.at] = tokens[i];
    Out { at: o.at + 1, ..o }
}

// Pairs each 7 with a partner; how many tokens are left is returned.
#[tactic(auto, using(crate::proofs::Turns::folding))]
fn fold_7(tokens: &mut [Token], fold: Fold) -> usize
    ensures { Turned (fold7 fold.partner fold.pair) result tokens.old tokens.new }
{
    let mut o = Out::default();
    for i in 0..tokens.len() {
        o = step(tokens, fold, o, i);
    }
    o.at
}

// Is this the kind of a Maj, with its 7 or without?
#[tactic(auto, unfolding(crate::specs::Folding::is_maj))]
fn is_maj(k: u8) -> bool
    ensures { result ≡ is_maj k }
{
    matches!(k, MAJ | MAJ7)
}

// Do token i and the one after it make a Maj7?
fn joins(tokens: &[Token], i: usize) -> bool
    requires { i < length tokens.now }
    ensures { result ≡ joins_at tokens.now i }
{
    i + 1 < tokens.len() && is_maj(tokens[i].kind) && tokens[i + 1].kind == SEVEN
}

// Puts at w what comes first of the tokens from i on; the place of the next one is returned.
#[tactic(auto, using(crate::proofs::Wholes::took))]
fn take_one(tokens: &mut [Token], w: usize, i: usize) -> usize
    requires room { (w ≤ i) × (i < length tokens.old) }
    requires short { (j : ℕ) → i ≤ j → j < length tokens.old → (token_at tokens.old j).len ≤ 256 }
    ensures { TookFirst i w result tokens.old tokens.new }
{
    if joins(tokens, i) {
        tokens[w] = Token {
            kind: MAJ7,
            pos: tokens[i].pos,
            len: tokens[i].len + tokens[i + 1].len,
        };
        return i + 2;
    }
    tokens[w] = tokens[i];
    i + 1
}

// Each Maj or Maj7 takes in a 7 right after it.
#[tactic(auto, using(crate::proofs::Wholes::joining))]
fn concat_maj7(tokens: &mut [Token]) -> usize
    requires { Short tokens.old }
    ensures { Turned concat result tokens.old tokens.new }
{
    // A `while`: a turn goes on by one token or by two.
    let mut w = 0;
    let mut i = 0;
    while i < tokens.len() {
        i = take_one(tokens, w, i);
        w += 1;
    }
    w
}

// Makes of the lexer's tokens those that the parser reads; their number is returned. Without a 7 nothing changes. What lies behind the new
// count is free.
pub fn pre_process(tokens: &mut [Token]) -> usize
    requires { Short tokens.old }
    ensures fewer { result ≤ length tokens.old }
    ensures folded { take result tokens.new ≡ pre_process tokens.old }
{
    if latest(tokens, SEVEN).is_none() {
        return tokens.len();
    }
    let a = concat_maj7(tokens);
    let b = fold_7(&mut tokens[..a], DIMS);
    fold_7(&mut tokens[..b], MAJS)
}
