//! What may come next in a configuration.

use crate::keyword::{Listed, Part};
use crate::sets::Sets;
use base_core::{Place, Text};

/// What may stand where a statement may begin: nothing else, a further name of a list, or a further
/// assignment.
#[derive(Clone, Copy, Debug, Drop, PartialEq, Eq)]
pub(crate) enum Further {
    Nothing,
    Name(Listed),
    Assignment,
}

/// The name that is being assigned, and where it stands.
#[derive(Drop)]
pub(crate) struct Assigned {
    pub(crate) name: Text,
    pub(crate) at: Place,
}

/// What the next mark has to be. Sets are those whose braces are open.
#[derive(Drop)]
pub(crate) enum Expects {
    /// A word that begins a statement, or what else may stand there.
    Statement(Further),
    /// The name behind INIT, NEXT or SPECIFICATION.
    Choice(Part),
    /// The first name of a list.
    FirstName(Listed),
    /// TRUE or FALSE behind CHECK_DEADLOCK.
    Truth,
    /// The first name that is assigned behind CONSTANT.
    FirstAssignment,
    /// `=` or `<-`
    Sign(Assigned),
    /// The name behind `<-`.
    Replacement(Assigned),
    Value(Assigned, Sets),
    /// The number behind `-`.
    Number(Assigned, Sets),
    /// A value or `}` behind `{`.
    FirstMember(Assigned, Sets),
    /// `,` or `}` behind a member.
    Separator(Assigned, Sets),
}
