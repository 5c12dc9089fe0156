//! The text of each kind of line.
ghost use Rattle.std.specs.Prelude.{◌≡◌};
ghost use Rattle.grid_base.specs.Point.{point_at};
ghost use Rattle.realm_audit.specs.Items.{IsLine};

use grid_base::{Chain, NoMemory, Point, Segment, Step};
use realm_audit::{Item, certificate_line};
use std::alloc::Global;
use std::test::Fail;

// Whether the item has this text.
fn has_text(alloc: Global, item: &Item, text: &str) -> Result<bool, NoMemory>
    requires { IsLine item.now }
{
    let line = certificate_line(alloc, item)?;
    Ok(line.bytes() == text.as_bytes())
}

#[test]
fn an_item_has_one_text(rt: HostRuntime) -> Result<(), Fail> {
    let alloc = rt.alloc();
    let (p, q) = (Point::at(0, 7), Point::at(1_073_741_823, 10));
    assert!(rt; has_text(alloc, &Item::Point(p), "point 0 7")?);
    assert!(rt; has_text(alloc, &Item::Unpoint(q), "unpoint 1073741823 10")?);
    let chain = Chain::new(vec![in alloc; p, q]?);
    let original = Item::Original(4_294_967_295, chain);
    assert!(rt; has_text(alloc, &original, "original 4294967295 0 7 1073741823 10")?);
    assert!(rt; has_text(alloc, &Item::Change, "change")?);
    assert!(rt; has_text(alloc, &Item::Remove(1), "remove 1")?);
    assert!(rt;
        has_text(
            alloc,
            &Item::Segment(2, q, p),
            "segment 2 1073741823 10 0 7"
        )?
    );
    assert!(rt; has_text(alloc, &Item::End, "end")?);
    Ok(())
}

#[test]
fn a_step_has_one_text(rt: HostRuntime) -> Result<(), Fail> {
    let alloc = rt.alloc();
    let t = rising();
    let u = falling();
    let p = Point::at(3, 3);
    let split = Item::Step(Step::Split { p, t });
    assert!(rt; has_text(alloc, &split, "split 3 3 2 3 4 5")?);
    let meet = Item::Step(Step::Meet { t, u, x: p });
    assert!(rt; has_text(alloc, &meet, "meet 2 3 4 5 2 5 4 3 3 3")?);
    let corner = Item::Step(Step::Corner { t, u });
    assert!(rt; has_text(alloc, &corner, "corner 2 3 4 5 2 5 4 3")?);
    Ok(())
}

fn rising() -> Segment
    ensures { result ≡ record { a = point_at 2 3; b = point_at 4 5 } }
{
    match Segment::new(Point::at(2, 3), Point::at(4, 5)) {
        Some(t) => t,
        None => unreachable!(),
    }
}

fn falling() -> Segment
    ensures { result ≡ record { a = point_at 2 5; b = point_at 4 3 } }
{
    match Segment::new(Point::at(2, 5), Point::at(4, 3)) {
        Some(u) => u,
        None => unreachable!(),
    }
}
