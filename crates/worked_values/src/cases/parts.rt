//! Numbers that links join, and the parts of lines.
use crate::paper::realm;
use linked_parts::components;
use r_blocks::blocks;
use rose_values::LinesValue;

#[test]
fn the_least_number_names_its_part(rt: HostRuntime) {
    let links = [(3, 1), (5, 4), (4, 3)];
    let labels = components(rt.alloc(), 6, &links).expect(&rt, "memory");
    assert!(rt; labels.as_slice() == [0, 1, 2, 1, 1, 1].as_slice());
}

#[test]
fn without_links_each_number_is_alone(rt: HostRuntime) {
    let labels = components(rt.alloc(), 3, &[]).expect(&rt, "memory");
    assert!(rt; labels.as_slice() == [0, 1, 2].as_slice());
}

#[test]
fn one_segment_is_one_block(rt: HostRuntime) {
    let lines = LinesValue::new(realm(&rt, rt.alloc(), &[[0, 0, 3, 4]]));
    let found = blocks(rt.alloc(), &lines).expect(&rt, "memory");
    assert!(rt; found.len() == 1);
    for block in &found {
        assert!(rt; block.segments() == lines.segments());
    }
}
