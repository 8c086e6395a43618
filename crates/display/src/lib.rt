// The display list: the members in the order of the semitones of what they are shown as.
#![tactic(auto)]

ghost use Rattle.std.specs.Prelude.{◌≡◌, ◌+◌, ◌<◌, get_or};
ghost use Rattle.intervals.specs.Stored.{members, listed, list_of};
ghost use Rattle.display.specs.Display.{shown, order, display_of};
ghost use Rattle.display.specs.State.{moved_at};

use intervals::{
    AUGMENTED_FOURTH, FLAT_NINTH, IntervalList, IntervalSet, MAJOR_SECOND, MINOR_SECOND, NINTH,
    SHARP_ELEVENTH,
};

// What the interval i is shown as, where the first sus is of the interval k.
fn shown(k: u8, i: u8) -> u8
    ensures { result ≡ shown k i }
{
    match (k, i) {
        (MINOR_SECOND, FLAT_NINTH) => MINOR_SECOND,
        (MAJOR_SECOND, NINTH) => MAJOR_SECOND,
        (AUGMENTED_FOURTH, SHARP_ELEVENTH) => AUGMENTED_FOURTH,
        _ => i,
    }
}

// The j-th of the numbers, where `high` has been moved behind `low`.
fn moved(low: u8, high: u8, j: u8) -> u8
    requires { low + 1 < 256 }
    ensures { result ≡ moved_at low high j }
{
    if j <= low {
        j
    } else if j == low + 1 {
        high
    } else if j <= high {
        j - 1
    } else {
        j
    }
}

// The j-th of the numbers in the order in which they are shown.
fn order_at(k: u8, j: u8) -> u8
    requires { j < 23 }
    ensures { (result ≡ get_or (order k) j 0) × (result < 23) }
{
    match k {
        MINOR_SECOND => moved(1, 16, j),
        MAJOR_SECOND => moved(2, 17, j),
        AUGMENTED_FOURTH => moved(7, 20, j),
        _ => j,
    }
}

// The members in the order in which they are shown, each as it is shown.
fn in_order(k: u8, s: IntervalSet) -> IntervalList
    ensures { (result ≡ list_of (display_of k (members s))) × (listed result ≡ display_of k (members s)) }
{
    let mut list = IntervalList::new();
    for j in 0..23 {
        let i = order_at(k, j);
        if s.contains(i) {
            list.push(shown(k, i));
        }
    }
    list
}

// The display list of a set, where the first sus is of the interval k; k is any other number where there is none: a number and no
// Option, as `display_of` and `first_sus` have it. In each case k is known, so that the loop has no test of it.
pub fn display(k: u8, s: IntervalSet) -> IntervalList
    ensures { (result ≡ list_of (display_of k (members s))) × (listed result ≡ display_of k (members s)) }
{
    match k {
        1 => in_order(1, s),
        2 => in_order(2, s),
        6 => in_order(6, s),
        _ => in_order(0, s),
    }
}
