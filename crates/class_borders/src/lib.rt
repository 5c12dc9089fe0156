//! The borders of classes: how the segments that a class has on one side lie round their ends.
//! Begin at `classes_turn_whole`. Each call is a law: it answers nothing, and takes no memory.
#![tactic(auto)]

mod laws;

pub use laws::{
    classes_turn_whole, cycles_go_one_way, one_cycle_between_classes, rims_are_even,
    some_side_is_outer,
};
