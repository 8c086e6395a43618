// What the parser keeps between tokens of sus, add and omit.
ghost use Rattle.std.specs.Prelude.{◌≡◌};
ghost use Rattle.step.specs.Context.{on_comma, is_none, start_group, member_of};

use expression::expression::Exp;

#[derive(Clone, Copy)]
pub enum GroupKind {
    Omit,
    Add,
}

// A group that a bracket holds, with its kind and whether a comma has made it active.
#[derive(Clone, Copy)]
pub struct GroupContext {
    pub kind: GroupKind,
    pub active: bool,
}

#[derive(Clone, Copy)]
pub enum Context {
    None,
    Sus,
    Group(GroupContext),
}

impl GroupKind {
    // The expression of an interval that a comma added to the group.
    pub(crate) fn member(self, interval: u8, pos: u16) -> Exp
        ensures { result ≡ member_of self interval pos }
    {
        match self {
            GroupKind::Omit => Exp::Omit(interval, pos),
            GroupKind::Add => Exp::Add(interval, pos),
        }
    }
}

impl Context {
    // A group opens only while a bracket is open.
    pub(crate) fn start_group(self, kind: GroupKind, inside: bool) -> Context
        ensures { result ≡ start_group self kind inside }
    {
        if inside {
            Context::Group(GroupContext {
                kind,
                active: false,
            })
        } else {
            self
        }
    }

    // A comma makes a group active; any other state becomes none.
    pub(crate) fn on_comma(self) -> Context
        ensures { result ≡ on_comma self }
    {
        match self {
            Context::Group(g) => Context::Group(GroupContext { active: true, ..g }),
            _ => Context::None,
        }
    }

    pub(crate) fn is_none(self) -> bool
        ensures { result ≡ is_none self }
    {
        matches!(self, Context::None)
    }
}
