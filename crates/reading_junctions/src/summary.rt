//! What the tests of a token ask of all that is open.

ghost use Rattle.std.specs.Prelude.{◌≡◌, is_some};
ghost use Rattle.reading_junctions.specs.Summary.{nothing_open, greater, at_or_left, with_open, list_ends, list_has, summary_reaches, summary_closes};

use crate::kinds::{belongs, bullet_of, has_bullet};
use reading_tokens::{Kind, Token};
use reading_trees::{Bullet, Construct, Open};

/// An open list.
#[derive(Clone, Copy)]
pub struct OpenList {
    pub bullet: Bullet,
    pub col: u32,
}

/// What is open, as far as a token's tests ask.
#[derive(Clone, Copy)]
pub struct Summary {
    /// The greatest column of the open lists.
    pub rightmost: Option<u32>,
    /// The greatest column of the lists inside which a construct other than CASE is open.
    pub holding: Option<u32>,
    /// The innermost list, where at most CASEs are open in it.
    pub list: Option<OpenList>,
    /// Whether what was opened last is a CASE.
    pub case_last: bool,
    /// The innermost construct other than CASE.
    pub inside: Option<Construct>,
    /// Whether a CASE is open after that construct.
    pub case: bool,
}

/// Whether a column is at or left of another, if there is one.
fn at_or_left(col: u32, right: Option<u32>) -> bool
    ensures { result ≡ at_or_left col right }
{
    match right {
        None => false,
        Some(right) => col <= right,
    }
}

fn greater(greatest: Option<u32>, col: u32) -> Option<u32>
    ensures { result ≡ greater greatest col }
{
    match greatest {
        None => Some(col),
        Some(other) => { if other <= col { Some(col) } else { Some(other) } }
    }
}

impl Summary {
    pub fn nothing_open() -> Summary
        ensures { result ≡ nothing_open }
    {
        Summary {
            rightmost: None,
            holding: None,
            list: None,
            case_last: false,
            inside: None,
            case: false,
        }
    }

    /// What is open once this is opened, too.
    pub fn with_open(self, inner: Open) -> Summary
        ensures { result ≡ with_open inner self }
    {
        match inner {
            Open::List(bullet, col) => Summary {
                rightmost: greater(self.rightmost, col),
                list: Some(OpenList { bullet, col }),
                case_last: false,
                ..self
            },
            Open::Case => Summary {
                case_last: true,
                case: true,
                ..self
            },
            Open::Inside(construct) => Summary {
                holding: self.rightmost,
                list: None,
                case_last: false,
                inside: Some(construct),
                case: false,
                ..self
            },
        }
    }

    pub fn is_left(self, col: u32) -> bool
        ensures { result ≡ at_or_left col self.holding }
    {
        at_or_left(col, self.holding)
    }

    pub fn has_list(self) -> bool
        ensures { result ≡ is_some self.rightmost }
    {
        self.rightmost.is_some()
    }

    pub fn is_item(self, token: &Token) -> bool
        ensures { result ≡ list_has token.now self.list }
    {
        match self.list {
            Some(list) => {
                has_bullet(bullet_of(&token.kind), list.bullet) && token.place.col == list.col
            }
            None => false,
        }
    }

    pub fn ends_by_column(self, col: u32) -> bool
        ensures { result ≡ list_ends col self.list }
    {
        match self.list {
            Some(list) => col <= list.col,
            None => false,
        }
    }

    /// Whether a closing token closes for a construct with only lists and CASEs open after it.
    pub fn reaches(self, operand: bool, kind: &Kind) -> bool
        ensures { result ≡ summary_reaches operand kind.now self }
    {
        if self.case && belongs(operand, kind, Open::Case) {
            return true;
        }
        match self.inside {
            Some(construct) => belongs(operand, kind, Open::Inside(construct)),
            None => false,
        }
    }

    /// Whether the innermost list was opened after the construct that a closing token reaches.
    pub fn ends_by_closing(self, operand: bool, kind: &Kind) -> bool
        ensures { result ≡ summary_closes operand kind.now self }
    {
        if self.case_last && belongs(operand, kind, Open::Case) {
            return false;
        }
        self.list.is_some() && self.reaches(operand, kind)
    }
}
