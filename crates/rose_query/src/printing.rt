//! Replies are written number by number with std's own formatting, whose text is exact.
ghost use Rattle.std.specs.Prelude.{◌≡◌, ◌++◌, IfOk, OnOk, string_bytes, codes};
ghost use Rattle.std.specs.List.{flat_map};
ghost use Rattle.rose_operators.specs.Results.{IsAscending};
ghost use Rattle.rose_query.specs.Replies.{realm_reply, chain_reply, value_reply, trace_reply};
ghost use Rattle.rose_query.specs.Replies.{points_reply, segments_reply, point_line, segment_line, step_line};
ghost use Rattle.rose_query.specs.Replies.{point_text, ends_text, truth_reply, number_reply};
ghost use Rattle.rose_query.specs.Replies.{vertex_text, cycle_line, face_lines, faces_reply};
ghost use Rattle.grid_base.specs.declared.kinds.Step.TheVariants.{Split, Meet, Corner};

use grid_base::{Chain, NoMemory, Point, Reply, Segment, Step};
use r_faces::Face;
use rose_values::Geometry;
use std::alloc::{AllocError, Global};

/// The reply to `realm`.
pub(crate) fn list_realm(
    alloc: Global,
    points: &[Point],
    pieces: &[Segment],
) -> Result<Reply, NoMemory>
    ensures { IfOk result (λ reply. reply ≡ realm_reply points.now pieces.now) }
{
    let (point_count, piece_count) = (points.len(), pieces.len());
    let mut text = format!(in alloc; "realm {point_count} {piece_count}\n")?;
    push_point_lines(&mut text, points)?;
    push_segment_lines(&mut text, pieces)?;
    Ok(Reply::new(text.into_bytes()))
}

/// The reply to `show` and `eval`. What it lists ascends.
pub(crate) fn list_value(alloc: Global, geometry: &Geometry) -> Result<Reply, NoMemory>
    ensures reply { IfOk result (λ reply. reply ≡ value_reply geometry.now) }
    ensures ascending { IsAscending geometry.now }
{
    let mut text = String::new(alloc);
    push_value(&mut text, geometry)?;
    Ok(Reply::new(text.into_bytes()))
}

/// The reply to `chain`.
pub(crate) fn list_chain(alloc: Global, points: &[Point]) -> Result<Reply, NoMemory>
    ensures { IfOk result (λ reply. reply ≡ chain_reply points.now) }
{
    let mut text = String::new(alloc);
    push_points(&mut text, "chain", points)?;
    Ok(Reply::new(text.into_bytes()))
}

/// The reply to `trace`.
pub(crate) fn list_trace(alloc: Global, steps: &[Step]) -> Result<Reply, NoMemory>
    ensures { IfOk result (λ reply. reply ≡ trace_reply steps.now) }
{
    let count = steps.len();
    let mut text = format!(in alloc; "trace {count}\n")?;
    push_step_lines(&mut text, steps)?;
    Ok(Reply::new(text.into_bytes()))
}

/// The reply to `ask`.
pub(crate) fn list_truth(alloc: Global, answer: bool) -> Result<Reply, NoMemory>
    ensures { IfOk result (λ reply. reply ≡ truth_reply answer) }
{
    let text = if answer {
        format!(in alloc; "true\n")?
    } else {
        format!(in alloc; "false\n")?
    };
    Ok(Reply::new(text.into_bytes()))
}

/// The reply to `num`.
pub(crate) fn list_number(alloc: Global, number: Option<u128>) -> Result<Reply, NoMemory>
    ensures { IfOk result (λ reply. reply ≡ number_reply number) }
{
    let text = match number {
        Some(n) => format!(in alloc; "num {n}\n")?,
        None => format!(in alloc; "num none\n")?,
    };
    Ok(Reply::new(text.into_bytes()))
}

/// The reply to `faces`.
pub(crate) fn list_faces(alloc: Global, faces: &[Face]) -> Result<Reply, NoMemory>
    ensures { IfOk result (λ reply. reply ≡ faces_reply faces.now) }
{
    let count = faces.len();
    let mut text = format!(in alloc; "faces {count}\n")?;
    push_faces(&mut text, faces)?;
    Ok(Reply::new(text.into_bytes()))
}

/// Writes a value as `show` lists it. What it lists ascends.
pub(crate) fn push_value(text: &mut String, geometry: &Geometry) -> Result<(), AllocError>
    ensures text { OnOk result (string_bytes text.new ≡ string_bytes text.old ++ value_reply geometry.now) }
    ensures ascending { IsAscending geometry.now }
{
    match geometry {
        Geometry::P(points) => push_points(text, "points", points.points()),
        Geometry::L(lines) => push_segments(text, "lines", lines.segments()),
        Geometry::R(region) => push_segments(text, "regions", region.segments()),
    }
}

fn push_points(text: &mut String, word: &str, points: &[Point]) -> Result<(), AllocError>
    ensures { OnOk result (string_bytes text.new ≡ string_bytes text.old ++ points_reply word.now points.now) }
{
    let count = points.len();
    write!(text, "{word} {count}\n")?;
    push_point_lines(text, points)
}

fn push_segments(text: &mut String, word: &str, segments: &[Segment]) -> Result<(), AllocError>
    ensures { OnOk result (string_bytes text.new
        ≡ string_bytes text.old ++ segments_reply word.now segments.now) }
{
    let count = segments.len();
    write!(text, "{word} {count}\n")?;
    push_segment_lines(text, segments)
}

fn push_point_lines(text: &mut String, points: &[Point]) -> Result<(), AllocError>
    ensures { OnOk result (string_bytes text.new ≡ string_bytes text.old ++ flat_map point_line points.now) }
{
    for p in points {
        push_point_line(text, p)?;
    }
    Ok(())
}

fn push_segment_lines(text: &mut String, segments: &[Segment]) -> Result<(), AllocError>
    ensures { OnOk result (string_bytes text.new
        ≡ string_bytes text.old ++ flat_map segment_line segments.now) }
{
    for s in segments {
        push_segment_line(text, s)?;
    }
    Ok(())
}

fn push_step_lines(text: &mut String, steps: &[Step]) -> Result<(), AllocError>
    ensures { OnOk result (string_bytes text.new ≡ string_bytes text.old ++ flat_map step_line steps.now) }
{
    for step in steps {
        push_step_line(text, step)?;
    }
    Ok(())
}

fn push_faces(text: &mut String, faces: &[Face]) -> Result<(), AllocError>
    ensures { OnOk result (string_bytes text.new ≡ string_bytes text.old ++ flat_map face_lines faces.now) }
{
    for face in faces {
        push_face(text, face)?;
    }
    Ok(())
}

fn push_face(text: &mut String, face: &Face) -> Result<(), AllocError>
    ensures { OnOk result (string_bytes text.new ≡ string_bytes text.old ++ face_lines face.now) }
{
    push_cycle(text, "outer", face.outer.points())?;
    push_holes(text, face.holes.cycles())
}

fn push_holes(text: &mut String, holes: &[Chain]) -> Result<(), AllocError>
    ensures { OnOk result (string_bytes text.new
        ≡ string_bytes text.old ++ flat_map (cycle_line (codes "hole")) holes.now) }
{
    for hole in holes {
        push_cycle(text, "hole", hole.points())?;
    }
    Ok(())
}

fn push_cycle(text: &mut String, word: &str, points: &[Point]) -> Result<(), AllocError>
    ensures { OnOk result (string_bytes text.new ≡ string_bytes text.old ++ cycle_line word.now points.now) }
{
    write!(text, "{word}")?;
    push_vertices(text, points)?;
    write!(text, "\n")
}

fn push_vertices(text: &mut String, points: &[Point]) -> Result<(), AllocError>
    ensures { OnOk result (string_bytes text.new ≡ string_bytes text.old ++ flat_map vertex_text points.now) }
{
    for p in points {
        push_vertex(text, p)?;
    }
    Ok(())
}

fn push_vertex(text: &mut String, p: &Point) -> Result<(), AllocError>
    ensures { OnOk result (string_bytes text.new ≡ string_bytes text.old ++ vertex_text p.now) }
{
    write!(text, " ")?;
    push_point(text, p)
}

fn push_point_line(text: &mut String, p: &Point) -> Result<(), AllocError>
    ensures { OnOk result (string_bytes text.new ≡ string_bytes text.old ++ point_line p.now) }
{
    push_point(text, p)?;
    write!(text, "\n")
}

fn push_segment_line(text: &mut String, s: &Segment) -> Result<(), AllocError>
    ensures { OnOk result (string_bytes text.new ≡ string_bytes text.old ++ segment_line s.now) }
{
    push_ends(text, s)?;
    write!(text, "\n")
}

fn push_step_line(text: &mut String, step: &Step) -> Result<(), AllocError>
    ensures { OnOk result (string_bytes text.new ≡ string_bytes text.old ++ step_line step.now) }
{
    match step {
        Step::Split { p, t } => push_split(text, p, t),
        Step::Meet { t, u, x } => push_meet(text, t, u, x),
        Step::Corner { t, u } => push_corner(text, t, u),
    }
}

fn push_split(text: &mut String, p: &Point, t: &Segment) -> Result<(), AllocError>
    ensures { OnOk result (string_bytes text.new ≡ string_bytes text.old ++ step_line (Split p.now t.now)) }
{
    write!(text, "split ")?;
    push_point(text, p)?;
    write!(text, " ")?;
    push_segment_line(text, t)
}

fn push_meet(text: &mut String, t: &Segment, u: &Segment, x: &Point) -> Result<(), AllocError>
    ensures { OnOk result (string_bytes text.new
        ≡ string_bytes text.old ++ step_line (Meet t.now u.now x.now)) }
{
    write!(text, "meet ")?;
    push_ends(text, t)?;
    write!(text, " ")?;
    push_ends(text, u)?;
    write!(text, " ")?;
    push_point_line(text, x)
}

fn push_corner(text: &mut String, t: &Segment, u: &Segment) -> Result<(), AllocError>
    ensures { OnOk result (string_bytes text.new ≡ string_bytes text.old ++ step_line (Corner t.now u.now)) }
{
    write!(text, "corner ")?;
    push_ends(text, t)?;
    write!(text, " ")?;
    push_segment_line(text, u)
}

fn push_point(text: &mut String, p: &Point) -> Result<(), AllocError>
    ensures { OnOk result (string_bytes text.new ≡ string_bytes text.old ++ point_text p.now) }
{
    let (x, y) = (p.x(), p.y());
    write!(text, "{x} {y}")
}

fn push_ends(text: &mut String, s: &Segment) -> Result<(), AllocError>
    ensures { OnOk result (string_bytes text.new ≡ string_bytes text.old ++ ends_text s.now) }
{
    let (a, b) = (s.a(), s.b());
    let (x, y, u, v) = (a.x(), a.y(), b.x(), b.y());
    write!(text, "{x} {y} {u} {v}")
}
