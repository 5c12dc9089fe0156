//! The operators: `interior` by the cells that lines make, and each other one by points and segments.
ghost use Rattle.std.specs.Prelude.{◌≡◌, ◌↔◌, ◌++◌, IfOk, Err, None, option_map};
ghost use Rattle.std.specs.Option.{option_copied};
ghost use Rattle.grid_base.specs.Border.{AreNoded};
ghost use Rattle.rose_values.specs.Geometry.{kind_of};
ghost use Rattle.rose_values.specs.Kinds.{result_kind_of};
ghost use Rattle.rose_values.specs.Operators.{segments_of, segments_of_second};
ghost use Rattle.rose_values.specs.declared.operators.Op.TheVariants.{Interior};
ghost use Rattle.rose_overlay.specs.declared.evaluating.EvalError.TheVariants.{WrongTypes};
ghost use Rattle.rose_operators.specs.Results.{IsResultOf};

use plane_cells::interior;
use rose_overlay::{EvalError, EvalResult, evaluate, evaluate_alone};
use rose_values::{Geometry, Op};
use std::alloc::Global;
use std::thread::Threads;

/// What the operator makes of one value or of two, in this order. Their segments together are those of one
/// realm, as those of one drawing are.
pub fn operate<R: Threads + Sync>(
    rt: &R,
    alloc: Global,
    op: Op,
    a: &Geometry,
    b: Option<&Geometry>,
) -> EvalResult
    requires noded { AreNoded (segments_of a.now ++ segments_of_second (option_copied b)) }
    ensures made { IfOk result (λ g. IsResultOf op a.now (option_copied b.entry) g) }
    ensures wrong_types { (result ≡ Err WrongTypes)
        ↔ (result_kind_of op (kind_of a.now) (option_map kind_of (option_copied b.entry)) ≡ None) }
{
    if op == Op::Interior {
        shut_in(alloc, a, b)
    } else {
        evaluate(rt, alloc, op, a, b)
    }
}

/// The same on one thread.
pub fn operate_alone(alloc: Global, op: Op, a: &Geometry, b: Option<&Geometry>) -> EvalResult
    requires noded { AreNoded (segments_of a.now ++ segments_of_second (option_copied b)) }
    ensures made { IfOk result (λ g. IsResultOf op a.now (option_copied b.entry) g) }
    ensures wrong_types { (result ≡ Err WrongTypes)
        ↔ (result_kind_of op (kind_of a.now) (option_map kind_of (option_copied b.entry)) ≡ None) }
{
    if op == Op::Interior {
        shut_in(alloc, a, b)
    } else {
        evaluate_alone(alloc, op, a, b)
    }
}

// What lines shut in. Nothing else has an interior.
fn shut_in(alloc: Global, a: &Geometry, b: Option<&Geometry>) -> EvalResult
    ensures made { IfOk result (λ g. IsResultOf Interior a.now (option_copied b.entry) g) }
    ensures wrong_types { (result ≡ Err WrongTypes)
        ↔ (result_kind_of Interior (kind_of a.now) (option_map kind_of (option_copied b.entry)) ≡ None) }
{
    match (a, b) {
        (Geometry::L(lines), None) => Ok(Geometry::R(interior(alloc, lines)?)),
        _ => Err(EvalError::WrongTypes),
    }
}
