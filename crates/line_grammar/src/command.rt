//! What a line can say. Each command has one row: a first word, what stands behind it, and what they say.
//! A command more is a line in each table here, in `behind`, in `specs/Rows` and in `proofs/CommandRows`.
ghost use Rattle.std.specs.Prelude.{◌≡◌};
ghost use Rattle.line_grammar.specs.declared.command.Command.TheVariants as commands;
ghost use Rattle.line_grammar.specs.Reading.{Gives};
ghost use Rattle.line_grammar.specs.Choosing.{keyword_at};
ghost use Rattle.line_grammar.specs.Rows.{keyword, parts};
ghost use Rattle.line_grammar.specs.Parts.{seen};

use crate::fault::ReadError;
use crate::name::Name;
use crate::names::{KeyedNames, Names};
use crate::parts::Parts;
use crate::path::{Path, Paths};
use crate::words::choose;
use rose_values::{Num, Op, Pred};

/// A place as a line writes it, which may lie outside the grid.
#[derive(Clone, Copy, Debug, PartialEq, Eq)]
pub struct At {
    pub x: u64,
    pub y: u64,
}

/// A line that asks for a change of the state.
#[derive(Debug, Drop)]
pub enum Change {
    /// The point becomes explicit.
    Point(At),
    /// The point is no longer explicit.
    Unpoint(At),
    /// A new original between two ends, in either order.
    Segment(At, At),
    /// Explicit points, maybe none, and a name for them.
    Points(Name, Path),
    /// An original for each two neighbours of each list, and a name for all of them.
    Lines(Name, Paths),
    /// An original for each two neighbours round each list, and a name for all of them.
    Regions(Name, Paths),
    /// A value made by an operator, which takes one name or two.
    Let(Name, Op, Name, Option<Name>),
    /// No value of this name any more.
    Drop(Name),
    /// No original with this id any more.
    Delete(u64),
}

/// A line that asks for an answer.
#[derive(Debug, Drop)]
pub enum Query {
    /// The points and the pieces of the drawing.
    Realm,
    /// The value of this name.
    Show(Name),
    /// The chain of the original with this id.
    Chain(u64),
    /// What an operator makes, which takes one name or two.
    Eval(Op, Name, Option<Name>),
    /// Whether a predicate holds of two values.
    Ask(Pred, Name, Name),
    /// A number of one value or two.
    Num(Num, Name, Option<Name>),
    /// The faces of the value of this name.
    Faces(Name),
    /// The steps of the change with this number.
    Trace(u64),
    /// What the values of these names make together, at least one.
    Sum(Names),
    /// The parts of the value of this name: its points, its connected parts or its faces.
    Decompose(Name),
    /// What each value of the first names and each of the second have in common, at least one of each.
    Overlay(Names, Names),
    /// What the values with the same key make together, at least one value.
    Fusion(KeyedNames),
}

/// A line.
#[derive(Debug, Drop)]
pub enum Command {
    Change(Change),
    Query(Query),
    /// The next lines, so many of them, are read first and then answered together.
    Batch(u64),
    /// The state is written anew, to the other file.
    Checkpoint,
    /// The changes from here on are a group.
    Begin,
    /// The changes of the group become one record.
    Commit,
    /// The changes of the group are given up.
    Abandon,
}

/// The first word of a line.
#[derive(Clone, Copy)]
pub enum Keyword {
    Point,
    Unpoint,
    Segment,
    Points,
    Lines,
    Regions,
    Let,
    Drop,
    Delete,
    Realm,
    Show,
    Chain,
    Eval,
    Ask,
    Num,
    Faces,
    Trace,
    Sum,
    Decompose,
    Overlay,
    Fusion,
    Batch,
    Checkpoint,
    Begin,
    Commit,
    Abandon,
}

/// The first word at the front.
#[tactic(auto, unfolding(crate::specs::Choosing::keyword_at))]
pub(crate) fn keyword_of(line: &[u8]) -> Result<(Keyword, &[u8]), ReadError>
    ensures { Gives (λ x. (x.0, x.1.now)) result (keyword_at line.now) }
{
    choose(
        &[
            ("point ", Keyword::Point),
            ("unpoint ", Keyword::Unpoint),
            ("segment ", Keyword::Segment),
            ("points ", Keyword::Points),
            ("lines ", Keyword::Lines),
            ("regions ", Keyword::Regions),
            ("let ", Keyword::Let),
            ("drop ", Keyword::Drop),
            ("delete ", Keyword::Delete),
            ("realm", Keyword::Realm),
            ("show ", Keyword::Show),
            ("chain ", Keyword::Chain),
            ("eval ", Keyword::Eval),
            ("ask ", Keyword::Ask),
            ("num ", Keyword::Num),
            ("faces ", Keyword::Faces),
            ("trace ", Keyword::Trace),
            ("sum", Keyword::Sum),
            ("decompose ", Keyword::Decompose),
            ("overlay", Keyword::Overlay),
            ("fusion", Keyword::Fusion),
            ("batch ", Keyword::Batch),
            ("checkpoint", Keyword::Checkpoint),
            ("begin", Keyword::Begin),
            ("commit", Keyword::Commit),
            ("abandon", Keyword::Abandon),
        ],
        line,
    )
}

/// The first word of a command, and what it puts behind it.
pub(crate) fn parts_of(c: &Command) -> (Keyword, Parts<'_>)
    ensures first { result.0 ≡ (parts c.now).0 }
    ensures puts { seen result.1 ≡ (parts c.now).1 }
{
    match c {
        Command::Change(change) => change_parts(change),
        Command::Query(query) => query_parts(query),
        Command::Batch(count) => (Keyword::Batch, Parts::OneNumber(*count)),
        Command::Checkpoint => (Keyword::Checkpoint, Parts::Nothing),
        Command::Begin => (Keyword::Begin, Parts::Nothing),
        Command::Commit => (Keyword::Commit, Parts::Nothing),
        Command::Abandon => (Keyword::Abandon, Parts::Nothing),
    }
}

/// The same of a change.
pub(crate) fn change_parts(change: &Change) -> (Keyword, Parts<'_>)
    ensures first { result.0 ≡ (parts (commands.Change change.now)).0 }
    ensures puts { seen result.1 ≡ (parts (commands.Change change.now)).1 }
{
    match change {
        Change::Point(p) => (Keyword::Point, Parts::OnePlace(p)),
        Change::Unpoint(p) => (Keyword::Unpoint, Parts::OnePlace(p)),
        Change::Segment(p, q) => (Keyword::Segment, Parts::TwoPlaces(p, q)),
        Change::Points(name, path) => (Keyword::Points, Parts::NameAndPlaces(name, path)),
        Change::Lines(name, paths) => (Keyword::Lines, Parts::NameAndLists(name, paths)),
        Change::Regions(name, paths) => (Keyword::Regions, Parts::NameAndLists(name, paths)),
        Change::Let(name, op, first, second) => {
            (Keyword::Let, Parts::Definition(name, *op, first, second))
        }
        Change::Drop(name) => (Keyword::Drop, Parts::OneName(name)),
        Change::Delete(id) => (Keyword::Delete, Parts::OneNumber(*id)),
    }
}

// The same of a query.
fn query_parts(query: &Query) -> (Keyword, Parts<'_>)
    ensures first { result.0 ≡ (parts (commands.Query query.now)).0 }
    ensures puts { seen result.1 ≡ (parts (commands.Query query.now)).1 }
{
    match query {
        Query::Realm => (Keyword::Realm, Parts::Nothing),
        Query::Show(name) => (Keyword::Show, Parts::OneName(name)),
        Query::Chain(id) => (Keyword::Chain, Parts::OneNumber(*id)),
        Query::Eval(op, first, second) => (Keyword::Eval, Parts::Operation(*op, first, second)),
        Query::Ask(asked, first, second) => (Keyword::Ask, Parts::Question(*asked, first, second)),
        Query::Num(num, first, second) => (Keyword::Num, Parts::Measure(*num, first, second)),
        Query::Faces(name) => (Keyword::Faces, Parts::OneName(name)),
        Query::Trace(number) => (Keyword::Trace, Parts::OneNumber(*number)),
        Query::Sum(names) => (Keyword::Sum, Parts::SomeNames(names)),
        Query::Decompose(name) => (Keyword::Decompose, Parts::OneName(name)),
        Query::Overlay(first, second) => (Keyword::Overlay, Parts::TwoLists(first, second)),
        Query::Fusion(names) => (Keyword::Fusion, Parts::KeyedNames(names)),
    }
}

/// The text of a first word.
pub(crate) fn first_word(first: Keyword) -> &'static str
    ensures { result.now ≡ keyword first }
{
    match first {
        Keyword::Point => "point ",
        Keyword::Unpoint => "unpoint ",
        Keyword::Segment => "segment ",
        Keyword::Points => "points ",
        Keyword::Lines => "lines ",
        Keyword::Regions => "regions ",
        Keyword::Let => "let ",
        Keyword::Drop => "drop ",
        Keyword::Delete => "delete ",
        Keyword::Realm => "realm",
        Keyword::Show => "show ",
        Keyword::Chain => "chain ",
        Keyword::Eval => "eval ",
        Keyword::Ask => "ask ",
        Keyword::Num => "num ",
        Keyword::Faces => "faces ",
        Keyword::Trace => "trace ",
        Keyword::Sum => "sum",
        Keyword::Decompose => "decompose ",
        Keyword::Overlay => "overlay",
        Keyword::Fusion => "fusion",
        Keyword::Batch => "batch ",
        Keyword::Checkpoint => "checkpoint",
        Keyword::Begin => "begin",
        Keyword::Commit => "commit",
        Keyword::Abandon => "abandon",
    }
}
