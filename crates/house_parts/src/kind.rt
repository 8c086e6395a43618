// K: the second or fourth that the display list shows for a member of the normalized set.
ghost use Rattle.std.specs.Prelude.{not, ◌&&◌, ◌≡◌, ◌<◌};
ghost use Rattle.intervals.specs.Interval.{elem};
ghost use Rattle.intervals.specs.Stored.{members, listed};
ghost use Rattle.house_parts.specs.House.{is_flat2, is_second, is_sharp4, is_sus, kind_in, sus_by};

use intervals::{
    AUGMENTED_FOURTH, FLAT_NINTH, IntervalList, IntervalSet, MAJOR_SECOND, MINOR_SECOND, NINTH,
    SHARP_ELEVENTH,
};

// b2 for b9, 2 for 9, #4 for #11, or none. No `Option`: the definitions of the spelling speak of one of four, each with its interval.
#[derive(Clone, Copy, PartialEq, Eq)]
pub enum SusKind {
    Plain,
    Flat2,
    Second,
    Sharp4,
}

impl SusKind {
    pub(crate) fn is_flat2(self) -> bool
        ensures { result ≡ is_flat2 self }
    {
        self == SusKind::Flat2
    }

    pub(crate) fn is_second(self) -> bool
        ensures { result ≡ is_second self }
    {
        self == SusKind::Second
    }

    pub(crate) fn is_sharp4(self) -> bool
        ensures { result ≡ is_sharp4 self }
    {
        self == SusKind::Sharp4
    }

    pub(crate) fn is_sus(self) -> bool
        ensures { result ≡ is_sus self }
    {
        self != SusKind::Plain
    }

    // The interval that is shown; 0 for none, as the definition has it.
    pub(crate) fn sus(self) -> u8
        ensures { result ≡ sus_by self }
    {
        match self {
            SusKind::Plain => 0,
            SusKind::Flat2 => MINOR_SECOND,
            SusKind::Second => MAJOR_SECOND,
            SusKind::Sharp4 => AUGMENTED_FOURTH,
        }
    }
}

fn shows(list: IntervalList, interval: u8) -> bool
    ensures { result ≡ elem interval (listed list) }
{
    list.as_slice().contains(&interval)
}

// Is a member absent from the display list?
fn is_hidden(set: IntervalSet, list: IntervalList, interval: u8) -> bool
    requires { interval < 23 }
    ensures { result ≡ (members set interval && not (elem interval (listed list))) }
{
    set.contains(interval) && !shows(list, interval)
}

// The K of a set and a display list, whatever they are.
pub fn kind_in(set: IntervalSet, list: IntervalList) -> SusKind
    ensures { result ≡ kind_in (members set) (listed list) }
{
    if is_hidden(set, list, FLAT_NINTH) {
        return SusKind::Flat2;
    }
    if is_hidden(set, list, NINTH) {
        return SusKind::Second;
    }
    if is_hidden(set, list, SHARP_ELEVENTH) {
        return SusKind::Sharp4;
    }
    SusKind::Plain
}
