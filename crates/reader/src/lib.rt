// Reading a card: the five questions, in the paper's order, and blank texts before the last two.
#![tactic(auto)]

ghost use Rattle.std.specs.Prelude.{Some, ◌≡◌, ◌+◌, ◌≤◌, length};
ghost use Rattle.evaluator.specs.State.{Sounds};
ghost use Rattle.parser.specs.State.{Tokens};
ghost use Rattle.token.specs.Token.{Room};
ghost use Rattle.reader.specs.Reader.{is_blank, number_of, parsed, reading_of, tokens_in, validated};
ghost use Rattle.reader.specs.State.{ReadGave, Read, Tokenized};

use chord::Chord;
use expression::expression::Exp;
use note::Note;
use token::Token;

// Why a text is not accepted; the last two carry the count of errors.
#[derive(Clone, Copy, PartialEq, Eq)]
pub enum Refusal {
    ShortList,
    LongText,
    NotUtf8,
    Parse(u16),
    Validation(u16),
}

// The paper's number.
impl From<Refusal> for u8 {
    ghost from_gives = { λ refusal n. n ≡ number_of (Some refusal) };

    fn from(refusal: Refusal) -> u8 {
        match refusal {
            Refusal::ShortList => 1,
            Refusal::LongText => 2,
            Refusal::NotUtf8 => 3,
            Refusal::Parse(_) => 4,
            Refusal::Validation(_) => 5,
        }
    }
}

// The chord of the expressions, if they and its set are valid.
fn evaluate(root: Option<Note>, exps: &[Exp], errs: &mut [u16]) -> Result<Chord, Refusal>
    requires { Sounds exps.now × (length exps.now ≤ 257) × (1028 ≤ length errs.old) }
    ensures { ReadGave (validated root exps.now) (reading_of result) errs.old errs.new }
{
    let evaluated = evaluator::evaluator::evaluate(exps);
    let errors = validator::validate(exps, evaluated.set, errs);
    if 0 < errors {
        return Err(Refusal::Validation(errors as u16));
    }
    Ok(Chord {
        root,
        bass: evaluated.bass,
        normalized: evaluated.set,
        display: evaluated.display,
    })
}

// The chord of the tokens.
fn parse(tokens: &[Token], errs: &mut [u16]) -> Result<Chord, Refusal>
    requires { Tokens tokens.now × (1028 ≤ length errs.old) }
    ensures { ReadGave (parsed tokens.now) (reading_of result) errs.old errs.new }
{
    let mut exps = [Exp::Power; 257];
    let ast = parser::parser::parse(tokens, errs, &mut exps);
    if 0 < ast.errors {
        return Err(Refusal::Parse(ast.errors as u16));
    }
    evaluate(ast.root, &exps[..ast.exps], errs)
}

// Writes the tokens of a text to the beginning of a lent array, folded; their number is returned.
pub fn tokenize(text: &[u8], tokens: &mut [Token]) -> usize
    requires { (length text.now ≤ 256) × Room (length text.now + 1) tokens.old }
    ensures { Tokenized text.now result tokens.new }
{
    let n = lexer::scan_tokens(text, tokens);
    folding::pre_process(&mut tokens[..n])
}

// Is a text empty, or spaces only?
fn is_blank(text: &[u8]) -> bool
    ensures { result ≡ is_blank text.now }
{
    text.iter().all(|byte| *byte == b' ')
}

// The chord of a text of at most 256 bytes that is UTF-8 and not blank. The bounds stand in contracts, since what is called takes slices.
fn read_text(text: &[u8], errs: &mut [u16]) -> Result<Chord, Refusal>
    requires { (length text.now ≤ 256) × (1028 ≤ length errs.old) }
    ensures { ReadGave (parsed (tokens_in text.now)) (reading_of result) errs.old errs.new }
{
    let mut tokens = [Token::default(); 257];
    let n = tokenize(text, &mut tokens);
    parse(&tokens[..n], errs)
}

// Reads any bytes, with any lent list. A blank text is accepted as no chord. After Parse or Validation the list begins with the errors; all
// else in it is untouched.
pub fn read(text: &[u8], errs: &mut [u16]) -> Result<Chord, Refusal>
    ensures { Read text.now errs.old errs.new (reading_of result) }
{
    if errs.len() < 1028 {
        return Err(Refusal::ShortList);
    }
    if 256 < text.len() {
        return Err(Refusal::LongText);
    }
    if !utf8::well_formed(text) {
        return Err(Refusal::NotUtf8);
    }
    if is_blank(text) {
        return Ok(Chord::new());
    }
    read_text(text, errs)
}
