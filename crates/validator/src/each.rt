// Errors of the numbers from 0 on.
ghost use Rattle.std.specs.Prelude.{◌≡◌, ℕ, List, Option, ◌+◌, ◌*◌, ◌≤◌, ◌<◌, length};
ghost use Rattle.expression.specs.State.{Gained};
ghost use Rattle.validator.specs.State.{error_of};
ghost use Rattle.validator.specs.Validator.{all_from};

use expression::parser_error::{Errors, ParserError};

// Pushes what `at` finds at each number below n.
pub(crate) fn push_each<F: Fn(usize) -> Option<ParserError>>(errors: &mut Errors, n: usize, at: F)
    requires callable { (i : ℕ) → i < n → F.pre at i }
    requires room { 4 * errors.old.count + 4 * n ≤ length errors.old.list.now }
    ensures gained { (f : ℕ → List ParserError) → ((i : ℕ) (r : Option ParserError) → i < n → F.post at i r → error_of r ≡ f i)
        → Gained errors.old errors.new (all_from f n 0) }
    ensures count { errors.new.count ≤ errors.old.count + n }
{
    for i in 0..n {
        if let Some(e) = at(i) {
            errors.push(e);
        }
    }
}
