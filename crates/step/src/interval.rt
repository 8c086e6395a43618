// The interval that a sign and a number name.
ghost use Rattle.std.specs.Prelude.{◌≡◌};
ghost use Rattle.step.specs.Interval.{found, interval_of};
ghost use Rattle.note.specs.declared.RootModifier.TheVariants.{Natural, Sharp, Flat};

use intervals::{
    AUGMENTED_FIFTH, AUGMENTED_FOURTH, DIMINISHED_FIFTH, ELEVENTH, FLAT_NINTH, FLAT_THIRTEENTH,
    MAJOR_SECOND, MAJOR_SIXTH, MAJOR_THIRD, MINOR_SECOND, MINOR_SEVENTH, MINOR_SIXTH, MINOR_THIRD,
    NINTH, OCTAVE, PERFECT_FIFTH, PERFECT_FOURTH, SHARP_ELEVENTH, SHARP_NINTH, THIRTEENTH, UNISON,
};
use note::RootModifier;

fn natural(number: u8) -> Option<u8>
    ensures { result ≡ found (interval_of Natural number) }
{
    match number {
        1 => Some(UNISON),
        2 => Some(MAJOR_SECOND),
        3 => Some(MAJOR_THIRD),
        4 => Some(PERFECT_FOURTH),
        5 => Some(PERFECT_FIFTH),
        6 => Some(MAJOR_SIXTH),
        7 => Some(MINOR_SEVENTH),
        8 => Some(OCTAVE),
        9 => Some(NINTH),
        11 => Some(ELEVENTH),
        13 => Some(THIRTEENTH),
        _ => None,
    }
}

fn sharp(number: u8) -> Option<u8>
    ensures { result ≡ found (interval_of Sharp number) }
{
    match number {
        4 => Some(AUGMENTED_FOURTH),
        5 => Some(AUGMENTED_FIFTH),
        9 => Some(SHARP_NINTH),
        11 => Some(SHARP_ELEVENTH),
        _ => None,
    }
}

fn flat(number: u8) -> Option<u8>
    ensures { result ≡ found (interval_of Flat number) }
{
    match number {
        2 => Some(MINOR_SECOND),
        3 => Some(MINOR_THIRD),
        5 => Some(DIMINISHED_FIFTH),
        6 => Some(MINOR_SIXTH),
        7 => Some(MINOR_SEVENTH),
        9 => Some(FLAT_NINTH),
        13 => Some(FLAT_THIRTEENTH),
        _ => None,
    }
}

pub(crate) fn from_modifier_extension(modifier: RootModifier, number: u8) -> Option<u8>
    ensures { result ≡ found (interval_of modifier number) }
{
    match modifier {
        RootModifier::Natural => natural(number),
        RootModifier::Sharp => sharp(number),
        RootModifier::Flat => flat(number),
    }
}
