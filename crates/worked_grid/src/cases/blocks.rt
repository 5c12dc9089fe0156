//! Lists over several blocks, worked out on paper.
use tiered_vector::TieredVector;

// Places in the list, and the numbers that stand there.
static NUMBERS: [(usize, i32); 7] = [
    (0, 1),
    (1, 3),
    (511, 1023),
    (512, 1025),
    (999, 1999),
    (1000, 1998),
    (1999, 0),
];

// Each number is put in at the middle of those before it, so the odd ones come to stand first, rising, and
// the even ones behind them, falling. Then the middle is taken out again and again.
#[test]
fn numbers_go_in_at_the_middle_and_come_out_there(rt: HostRuntime) {
    let mut list = TieredVector::new(rt.alloc());
    for number in 0..2000 {
        let middle = list.len() / 2;
        list.insert(middle, number).expect(&rt, "memory");
    }
    for (index, number) in NUMBERS.iter() {
        assert!(rt; *index < list.len());
        assert!(rt; list[*index] == *number, "at {index}");
    }
    for number in (0..2000).rev() {
        let len = list.len();
        assert!(rt; 0 < len);
        let middle = list.remove((len - 1) / 2);
        assert!(rt; middle == number, "{number}");
    }
    assert!(rt; list.len() == 0);
}
