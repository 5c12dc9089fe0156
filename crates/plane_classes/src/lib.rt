//! Classes of the plane: the parts into which segments cut it, as laws over lists of segments.
//! Begin at `straight_ways_stay`. Each call is a law: it answers nothing, and takes no memory.
#![tactic(auto)]

mod laws;

pub use laws::{
    class_is_equivalence, classes_have_one_parity, even_parts_are_whole, fewer_segments_part_less,
    one_side_is_odd, outer_class_is_even, outer_class_is_one, shear_keeps_classes,
    shear_keeps_parity, sides_have_one_parity, straight_ways_decide, straight_ways_stay,
};
