// Why a line is no question.
#[derive(Clone, Copy, PartialEq, Eq, Debug)]
pub(crate) enum Fault {
    NoQuestion,
    LongLine,
    NoNumber,
    LargeNumber,
    MoreThanRecord,
}

impl Fault {
    // The answer.
    pub(crate) fn text(self) -> &'static str {
        match self {
            Fault::NoQuestion => "? the first word is no question",
            Fault::LongLine => "? the line has more than 16384 bytes",
            Fault::NoNumber => "? a number is missing or not decimal",
            Fault::LargeNumber => "? a number is too large",
            Fault::MoreThanRecord => "? the line goes on behind the record",
        }
    }
}
