//! Cubes of one field.

ghost use Rattle.std.specs.Prelude.{◌≡◌};
ghost use Rattle.cells.specs.Blocks.{single_fields};

use net_types::Cube;

/// The cubes of the headers that have one of a cube's fields, each.
pub fn single_fields(cube: &Cube) -> [Cube; 6]
    ensures { result ≡ single_fields cube.now }
{
    let all = Cube::everything();
    [
        Cube {
            inport: cube.inport,
            ..all
        },
        Cube {
            src: cube.src,
            ..all
        },
        Cube {
            dst: cube.dst,
            ..all
        },
        Cube {
            proto: cube.proto,
            ..all
        },
        Cube {
            sport: cube.sport,
            ..all
        },
        Cube {
            dport: cube.dport,
            ..all
        },
    ]
}
