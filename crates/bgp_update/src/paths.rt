//! Paths of AS numbers, and how AS_PATH and AS4_PATH are put together (RFC 6793 4.2.3).

ghost use Rattle.std.specs.Prelude.{◌≡◌, ◌≤◌, ◌++◌, [], ◌∷◌, nat_le, IfOk, OnOk, Some, length, take};
ghost use Rattle.std.specs.List.{list_any};
ghost use Rattle.net_types.specs.declared.route.Segment.TheVariants.{Sequence};
ghost use Rattle.net_types.specs.Paths.{asns, has_wide, hops, hops_of, joined, leading, merged_sequence, whole_path};

use net_types::{Asns, Items, Memory, Segment, Segments, TryCopy};
use std::alloc::Global;

fn is_wide(segment: &Segment) -> bool
    ensures { result ≡ list_any (nat_le 65536) (asns segment.now) }
{
    segment.asns().iter().any(|asn| 65536 <= *asn)
}

/// Whether some AS number of a path takes more than two octets.
pub fn has_wide(path: &[Segment]) -> bool
    ensures { result ≡ has_wide path.now }
{
    path.iter().any(|segment| is_wide(segment))
}

/// How many AS numbers a segment counts: a set counts one.
fn hops_of(segment: &Segment) -> usize
    ensures { result ≡ hops_of segment.now }
{
    match segment {
        Segment::Set(_) => 1,
        Segment::Sequence(asns) => asns.len(),
    }
}

/// How many AS numbers a path counts. One that counts more than a word holds is told as want of memory.
fn hops(path: &[Segment]) -> Result<usize, Memory>
    ensures { IfOk result (λ n. n ≡ hops path.now) }
{
    let mut total = 0usize;
    for segment in path {
        match total.checked_add(hops_of(segment)) {
            Some(sum) => total = sum,
            None => return Err(Memory),
        }
    }
    Ok(total)
}

fn push_numbers(out: &mut Asns, numbers: &[u32]) -> Result<(), Memory>
    ensures { OnOk result (out.new ≡ out.old ++ numbers.now) }
{
    for number in numbers {
        out.push(*number)?;
    }
    Ok(())
}

fn push_segments(out: &mut Vec<Segment>, path: &[Segment]) -> Result<(), Memory>
    ensures { OnOk result (out.new.items ≡ out.old.items ++ path.now) }
{
    for segment in path {
        out.push(segment.copy()?)?;
    }
    Ok(())
}

/// The sequence of the first numbers of a segment.
fn first_of(alloc: Global, count: usize, segment: &Segment) -> Result<Segment, Memory>
    requires { count ≤ length (asns segment.now) }
    ensures { IfOk result (λ s. s ≡ Sequence (take count (asns segment.now))) }
{
    let mut first = Items::new(alloc);
    push_numbers(&mut first, &segment.asns()[..count])?;
    Ok(Segment::Sequence(first))
}

/// The leading part of a path that counts so many: whole segments while they fit, and then the first numbers of a sequence.
#[tactic(auto, using(crate::proofs::PathLists::leading_step))]
fn leading(alloc: Global, count: usize, path: &[Segment]) -> Result<Vec<Segment>, Memory>
    ensures { IfOk result (λ v. v.items ≡ leading count path.now) }
{
    let mut front = Vec::new(alloc);
    let mut left = count;
    let mut rest = path;
    while let [segment, more @ ..] = rest {
        let size = hops_of(segment);
        if left < size {
            if 1 <= left {
                front.push(first_of(alloc, left, segment)?)?;
            }
            return Ok(front);
        }
        front.push(segment.copy()?)?;
        left -= size;
        rest = more;
    }
    Ok(front)
}

/// A sequence before a path: both are one where that has at most 255 numbers.
fn push_merged(out: &mut Vec<Segment>, asns: Asns, path: &[Segment]) -> Result<(), Memory>
    ensures { OnOk result (out.new.items ≡ out.old.items ++ merged_sequence asns path.now) }
{
    let mut first = asns;
    match path {
        [Segment::Sequence(others), rest @ ..]
            if first.len() <= 255 && others.len() <= 255 - first.len() => {
            push_numbers(&mut first, others.items())?;
            out.push(Segment::Sequence(first))?;
            push_segments(out, rest)
        }
        _ => {
            out.push(Segment::Sequence(first))?;
            push_segments(out, path)
        }
    }
}

/// A segment before a path.
fn push_joined(out: &mut Vec<Segment>, last: Segment, path: &[Segment]) -> Result<(), Memory>
    ensures { OnOk result (out.new.items ≡ out.old.items ++ joined (last ∷ []) path.now) }
{
    match last {
        Segment::Sequence(asns) => push_merged(out, asns, path),
        Segment::Set(asns) => {
            out.push(Segment::Set(asns))?;
            push_segments(out, path)
        }
    }
}

/// One path before another; the segments where they meet may become one.
#[tactic(auto, using(crate::proofs::PathLists::joined_last))]
fn joined(front: Vec<Segment>, back: Segments) -> Result<Segments, Memory>
    ensures { IfOk result (λ v. v ≡ joined front.items back) }
{
    let mut all = front;
    let Some(last) = all.pop() else {
        return Ok(back);
    };
    push_joined(&mut all, last, back.items())?;
    Ok(Items::from_vec(all))
}

/// AS4_PATH behind as much of AS_PATH as that counts more, or AS_PATH where that counts less.
fn put_together(alloc: Global, path: Segments, wide: Segments) -> Result<Segments, Memory>
    ensures { IfOk result (λ v. v ≡ whole_path path (Some wide)) }
{
    let all = hops(path.items())?;
    let known = hops(wide.items())?;
    if all < known {
        return Ok(path);
    }
    let front = leading(alloc, all - known, path.items())?;
    joined(front, wide)
}

/// The path that AS_PATH and AS4_PATH say together. Without AS4_PATH nothing is copied.
pub fn whole_path(alloc: Global, path: Segments, wide: Option<Segments>) -> Result<Segments, Memory>
    ensures { IfOk result (λ v. v ≡ whole_path path wide) }
{
    match wide {
        None => Ok(path),
        Some(wide) => put_together(alloc, path, wide),
    }
}
