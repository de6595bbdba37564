//! How often a solver looks at its network in all.
ghost use Rattle.std.specs.Prelude.{◌≡◌, ◌+◌, ◌≤◌};
ghost use Rattle.pc_flow.specs.search.Labelling.{slopes_in};
ghost use Rattle.pc_flow.specs.Courses.{Course, IsLevel, IsSameCurve, IsFurther, lower_of, most_looks, all_looks};

/// States that the looks of the segments add up, and that a solver on its way down, from before its first segment,
/// takes at most four looks at each activity for each unit of the sum of the last slopes and of the range from the
/// all-normal to the all-crash length.
pub fn looks_add_up()
    ensures none { (c : Course) → most_looks c c ≡ 0 }
    ensures joins { (c d e : Course) → IsSameCurve c d → IsFurther c d → IsFurther d e →
        most_looks c d + most_looks d e ≡ most_looks c e }
    ensures all { (c d : Course) → IsLevel c → IsSameCurve c d → d.slope ≤ slopes_in d.net →
        d.shortest ≤ lower_of d → most_looks c d ≤ all_looks c }
{}
