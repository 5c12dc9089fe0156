//! What stands behind a first word.

use crate::command::At;
use crate::name::Name;
use crate::names::{KeyedNames, Names};
use crate::path::{Path, Paths};
use rose_values::{Num, Op, Pred};

/// What a command puts behind its first word.
#[derive(Clone, Copy)]
pub(crate) enum Parts<'a> {
    Nothing,
    OneNumber(u64),
    OnePlace(&'a At),
    TwoPlaces(&'a At, &'a At),
    OneName(&'a Name),
    NameAndPlaces(&'a Name, &'a Path),
    NameAndLists(&'a Name, &'a Paths),
    Operation(Op, &'a Name, &'a Option<Name>),
    Question(Pred, &'a Name, &'a Name),
    Measure(Num, &'a Name, &'a Option<Name>),
    Definition(&'a Name, Op, &'a Name, &'a Option<Name>),
    SomeNames(&'a Names),
    TwoLists(&'a Names, &'a Names),
    KeyedNames(&'a KeyedNames),
}
