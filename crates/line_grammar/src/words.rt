//! The words of which one has to stand behind some first words: operators, predicates and numbers. Each has
//! the space behind it, so that no word is the front of another.
ghost use Rattle.std.specs.Prelude.{◌≡◌, map};
ghost use Rattle.line_grammar.specs.Words.{operator, predicate, measure, takes_two, measures_two};
ghost use Rattle.line_grammar.specs.Reading.{Gives, choose_at};
ghost use Rattle.line_grammar.specs.Choosing.{operator_at, predicate_at, measure_at};

use crate::fault::ReadError;
use crate::tokens::literal;
use rose_values::{Num, Op, Pred};

/// The entry whose word is at the front, and the line behind the word.
pub(crate) fn choose<'a, T: Copy>(
    table: &[(&str, T)],
    line: &'a [u8],
) -> Result<(T, &'a [u8]), ReadError>
    ensures { Gives (λ x. (x.0, x.1.now)) result
        (choose_at (map (λ e. (e.0.now, e.1)) table.now) line.now) }
{
    let mut left = line.len();
    for (word, value) in table {
        match literal(word.as_bytes(), line) {
            Ok(rest) => return Ok((*value, rest)),
            Err(ReadError::Stopped { left: there }) => left = left.min(there),
            Err(ReadError::NoMemory) => return Err(ReadError::NoMemory),
        }
    }
    Err(ReadError::Stopped { left })
}

/// The operator at the front.
#[tactic(auto, unfolding(crate::specs::Choosing::operator_at))]
pub(crate) fn operator_of(line: &[u8]) -> Result<(Op, &[u8]), ReadError>
    ensures { Gives (λ x. (x.0, x.1.now)) result (operator_at line.now) }
{
    choose(
        &[
            ("intersection ", Op::Intersection),
            ("plus ", Op::Plus),
            ("minus ", Op::Minus),
            ("common_border ", Op::CommonBorder),
            ("vertices ", Op::Vertices),
            ("contour ", Op::Contour),
            ("interior ", Op::Interior),
        ],
        line,
    )
}

/// The predicate at the front.
#[tactic(auto, unfolding(crate::specs::Choosing::predicate_at))]
pub(crate) fn predicate_of(line: &[u8]) -> Result<(Pred, &[u8]), ReadError>
    ensures { Gives (λ x. (x.0, x.1.now)) result (predicate_at line.now) }
{
    choose(
        &[
            ("equal ", Pred::Equal),
            ("inside ", Pred::Inside),
            ("edge_inside ", Pred::EdgeInside),
            ("vertex_inside ", Pred::VertexInside),
            ("area_disjoint ", Pred::AreaDisjoint),
            ("edge_disjoint ", Pred::EdgeDisjoint),
            ("disjoint ", Pred::Disjoint),
            ("intersects ", Pred::Intersects),
            ("meets ", Pred::Meets),
            ("adjacent ", Pred::Adjacent),
            ("encloses ", Pred::Encloses),
            ("on_border_of ", Pred::OnBorderOf),
            ("border_in_common ", Pred::BorderInCommon),
        ],
        line,
    )
}

/// The number operator at the front.
#[tactic(auto, unfolding(crate::specs::Choosing::measure_at))]
pub(crate) fn measure_of(line: &[u8]) -> Result<(Num, &[u8]), ReadError>
    ensures { Gives (λ x. (x.0, x.1.now)) result (measure_at line.now) }
{
    choose(
        &[
            ("area2 ", Num::Area2),
            ("dist2 ", Num::Dist2),
            ("diameter2 ", Num::Diameter2),
            ("no_of_components ", Num::NoOfComponents),
        ],
        line,
    )
}

/// Whether the operator takes two values.
pub(crate) fn operator_takes_two(op: Op) -> bool
    ensures { result ≡ takes_two op }
{
    match op {
        Op::Intersection | Op::Plus | Op::Minus | Op::CommonBorder => true,
        Op::Vertices | Op::Contour | Op::Interior => false,
    }
}

/// Whether the number is one of two values.
pub(crate) fn number_of_two(num: Num) -> bool
    ensures { result ≡ measures_two num }
{
    match num {
        Num::Dist2 => true,
        Num::Area2 | Num::Diameter2 | Num::NoOfComponents => false,
    }
}
