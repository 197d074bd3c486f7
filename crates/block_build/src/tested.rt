//! What rules test: cubes of single fields, of which the cubes of the rules are meets.

ghost use Rattle.std.specs.Prelude.{◌≡◌, IfOk, IsTrue, List, OnOk};
ghost use Rattle.net_types.specs.Meets.{IsMeet};
ghost use Rattle.net_types.specs.Sets.{Member};
ghost use Rattle.net_types.specs.declared.cube.Cube.{Cube as AnyCube};
ghost use Rattle.block_build.specs.Bounds.{AreMeets};
ghost use Rattle.block_build.specs.Closed.{AreKept};

use cells::single_fields;
use classifier::Line;
use net_types::{Cube, Memory};
use std::alloc::Global;

/// Puts a tested cube last, unless it is there.
fn push_test(tests: &mut Vec<Cube>, test: &Cube) -> Result<(), Memory>
    ensures there { OnOk result (Member test.now tests.new.items) }
    ensures kept { OnOk result (AreKept tests.old.items tests.new.items) }
{
    if tests.contains(test) {
        return Ok(());
    }
    tests.push(*test)?;
    Ok(())
}

/// The meet of a cube with a tested one; the cube where they have no headers in common.
fn narrowed(whole: &Cube, test: &Cube) -> Cube
    ensures { (tests : List AnyCube) → IsMeet tests whole.now → Member test.now tests → IsMeet tests result }
{
    match cube::meet(whole, test) {
        Some(found) => found,
        None => *whole,
    }
}

/// Puts tested cubes last, each unless it is there, and answers a meet of them.
fn push_all(tests: &mut Vec<Cube>, fields: &[Cube]) -> Result<Cube, Memory>
    ensures meet { IfOk result (λ whole. IsMeet tests.new.items whole) }
    ensures kept { OnOk result (AreKept tests.old.items tests.new.items) }
{
    let mut whole = Cube::everything();
    for field in fields {
        push_test(tests, field)?;
        whole = narrowed(&whole, field);
    }
    Ok(whole)
}

/// Whether two cubes are equal.
pub(crate) fn is_same(a: &Cube, b: &Cube) -> bool
    ensures { IsTrue result → a.now ≡ b.now }
{
    *a == *b
}

/// Puts tested cubes last of which a cube is a meet: its fields.
fn push_tests_of(tests: &mut Vec<Cube>, cube: &Cube) -> Result<(), Memory>
    ensures meet { OnOk result (IsMeet tests.new.items cube.now) }
    ensures kept { OnOk result (AreKept tests.old.items tests.new.items) }
{
    // nothing rests on these but how few tested cubes there are
    let whole = push_all(tests, &single_fields(cube))?;
    if is_same(&whole, cube) {
        return Ok(());
    }
    push_test(tests, cube)?;
    Ok(())
}

/// Tested cubes of which the cubes of the rules are meets.
pub(crate) fn tests_of(alloc: Global, lines: &[Line]) -> Result<Vec<Cube>, Memory>
    ensures { IfOk result (λ tests. AreMeets tests.items lines.now) }
{
    let mut tests = Vec::new(alloc);
    for line in lines {
        push_tests_of(&mut tests, &line.cube)?;
    }
    Ok(tests)
}
