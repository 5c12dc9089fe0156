//! Laws of the predicates, for crates above: functions with nothing to do, whose contracts are the laws.
ghost use Rattle.std.specs.Prelude.{◌≡◌, ◌↔◌, ◌++◌, List};
ghost use Rattle.grid_base.specs.Point.{GridPoint};
ghost use Rattle.grid_base.specs.Segment.{GridSegment};
ghost use Rattle.grid_base.specs.Border.{AreNoded};
ghost use Rattle.rose_values.specs.Border.{ArePointsAscending, AreSegmentsAscending, IsBorder};
ghost use Rattle.rose_values.specs.declared.geometry.Geometry.TheVariants.{P, L, R};
ghost use Rattle.rose_values.specs.declared.operators.Pred.TheVariants.{Equal};
ghost use Rattle.rose_overlay.specs.Parting.{AreOrdered};
ghost use Rattle.rose_predicates.specs.Predicates.{HaveSameSegments, IsTrueOf};

/// Two values of one kind and one realm are equal, by all their points, exactly where they are one: points
/// where they are one list, lines and regions where they have the same segments, of which there is one list.
pub fn equal_is_same()
    ensures points { (A B : List GridPoint) → ArePointsAscending A → ArePointsAscending B
        → IsTrueOf Equal (P A) (P B) ↔ (A ≡ B) }
    ensures lines { (A B : List GridSegment) → AreNoded (A ++ B) → AreOrdered A → AreOrdered B
        → IsTrueOf Equal (L A) (L B) ↔ HaveSameSegments A B }
    ensures regions { (A B : List GridSegment) → AreNoded (A ++ B) → AreOrdered A → AreOrdered B
        → IsBorder A → IsBorder B → IsTrueOf Equal (R A) (R B) ↔ HaveSameSegments A B }
    ensures one_list { (A B : List GridSegment) → AreSegmentsAscending A → AreSegmentsAscending B
        → HaveSameSegments A B → A ≡ B }
{}
