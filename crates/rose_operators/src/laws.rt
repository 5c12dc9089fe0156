//! Laws of the operators, for crates above: functions with nothing to do, whose contracts are the laws.
ghost use Rattle.std.specs.Prelude.{◌≡◌, ◌++◌, Option, All};
ghost use Rattle.grid_base.specs.Point.{IsBefore};
ghost use Rattle.grid_base.specs.Border.{AreNoded};
ghost use Rattle.rose_values.specs.Operators.{segments_of, segments_of_second};
ghost use Rattle.rose_values.specs.declared.geometry.Geometry.{Geometry};
ghost use Rattle.rose_values.specs.declared.operators.Op.{Op};
ghost use Rattle.rose_operators.specs.Results.{IsAscending, IsResultOf};

/// Two results of one operator on the same values are one geometry.
pub fn one_result()
    ensures { (op : Op) (a : Geometry) (b : Option Geometry) (g h : Geometry)
        → AreNoded (segments_of a ++ segments_of_second b)
        → All (λ s. IsBefore s.a s.b) (segments_of a ++ segments_of_second b) → IsAscending g → IsAscending h
        → IsResultOf op a b g → IsResultOf op a b h → g ≡ h }
{}
