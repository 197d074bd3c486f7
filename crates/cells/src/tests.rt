use crate::{Cells, Inside, cells_of, firsts_of};
use net_types::{Cube, PortNo};
use std::test::Fail;

/// Of one transport protocol.
fn of(proto: u8) -> Cube {
    Cube {
        proto: Some(proto),
        ..Cube::everything()
    }
}

/// To one port.
fn to(dport: u16) -> Cube {
    Cube {
        dport: Some(dport),
        ..Cube::everything()
    }
}

/// Of one transport protocol, to one port.
fn both(proto: u8, dport: u16) -> Cube {
    Cube {
        proto: Some(proto),
        dport: Some(dport),
        ..Cube::everything()
    }
}

/// From one port of the exchange.
fn from(inport: u16) -> Cube {
    Cube {
        inport: Some(PortNo(inport)),
        ..Cube::everything()
    }
}

#[test]
fn atoms_are_met(rt: HostRuntime) -> Result<(), Fail> {
    let alloc = rt.alloc();
    let cases: [(&str, &[Cube], &[Cube]); 6] = [
        ("no atoms", &[], &[]),
        ("one atom", &[of(6)], &[of(6)]),
        ("the same twice", &[of(6), of(6)], &[of(6)]),
        ("two apart", &[of(6), of(17)], &[of(17), of(6)]),
        (
            "two that meet",
            &[of(6), to(80)],
            &[both(6, 80), to(80), of(6)],
        ),
        (
            "one within another",
            &[of(6), both(6, 80)],
            &[both(6, 80), of(6)],
        ),
    ];
    for (name, atoms, cells) in cases {
        let found = cells_of(alloc, atoms)?;
        assert!(rt; found.as_slice() == cells, "{name}");
    }
    Ok(())
}

#[test]
fn cubes_are_added(rt: HostRuntime) -> Result<(), Fail> {
    let mut cells = Cells::new(rt.alloc());
    assert!(rt; cells.len() == 0 && !cells.has(&of(6)));
    cells.add(&of(6))?;
    cells.add(&to(80))?;
    cells.add(&of(6))?;
    assert!(rt; cells.cubes() == [both(6, 80), to(80), of(6)].as_slice());
    assert!(rt; cells.len() == 3);
    assert!(rt; cells.has(&of(6)) && cells.has(&to(80)) && !cells.has(&of(17)));
    assert!(rt; cells.has(&both(6, 80)));
    cells.add(&both(6, 80))?;
    assert!(rt; cells.len() == 3);
    Ok(())
}

#[test]
fn first_cubes_are_found(rt: HostRuntime) -> Result<(), Fail> {
    let alloc = rt.alloc();
    let cells = cells_of(alloc, &[of(6), to(80)])?;
    let mut inside = Inside::new(alloc, &cells);
    let all = Cube::everything();
    let cases: [(&str, &[Cube], &[Option<usize>]); 6] = [
        ("no cubes", &[], &[None, None, None]),
        ("one field", &[of(6)], &[Some(0), None, Some(0)]),
        ("another", &[to(80), of(6)], &[Some(0), Some(0), Some(1)]),
        (
            "two fields",
            &[both(6, 80), of(6), to(80)],
            &[Some(0), Some(2), Some(1)],
        ),
        ("elsewhere", &[of(17), from(1)], &[None, None, None]),
        ("all", &[to(80), all, of(6)], &[Some(0), Some(0), Some(1)]),
    ];
    for (name, cubes, firsts) in cases {
        let found = firsts_of(alloc, &mut inside, cubes)?;
        assert!(rt; found.as_slice() == firsts, "{name}");
    }
    Ok(())
}

#[test]
fn blocks_are_passed_over(rt: HostRuntime) -> Result<(), Fail> {
    let alloc = rt.alloc();
    let mut atoms = Vec::new(alloc);
    for port in 0..200u16 {
        atoms.push(to(port))?;
    }
    let mut inside = Inside::new(alloc, &atoms);
    let cubes = [to(130), to(3), to(64), to(130), to(400)];
    let found = firsts_of(alloc, &mut inside, &cubes)?;
    assert!(rt; found.len() == 200);
    for (port, first) in found.iter().enumerate() {
        let wanted = match port {
            130 => Some(0),
            3 => Some(1),
            64 => Some(2),
            _ => None,
        };
        assert!(rt; *first == wanted, "port {port}");
    }
    Ok(())
}
