//! Cubes of facts.

ghost use Rattle.std.specs.Prelude.{◌≡◌, IfOk, map};
ghost use Rattle.cert_structure.specs.Walk.{AgreesKept, cell_read, cube_read};

use bool_diagrams::{Cell, Cube};
use certificate::CertCell;
use fact_reading::FactFault;
use std::alloc::{AllocError, Global};

/// A cell of a cube.
fn cell(cell: CertCell) -> Cell
    ensures { result ≡ cell_read cell }
{
    match cell {
        CertCell::Zero => Cell::Zero,
        CertCell::One => Cell::One,
        CertCell::Any => Cell::Any,
    }
}

/// The cells of a cube.
fn cells(alloc: Global, cells: &[CertCell]) -> Result<Vec<Cell>, AllocError>
    ensures { IfOk result (λ copy. copy.items ≡ map cell_read cells.now) }
{
    let mut copy = Vec::new(alloc);
    for place in cells {
        copy.push(cell(*place))?;
    }
    Ok(copy)
}

/// A cube with a cell for each of `arity` arguments. `Shape` where there are more or fewer.
pub fn cube(alloc: Global, arity: u32, places: &[CertCell]) -> Result<Cube, FactFault>
    ensures { AgreesKept result (cube_read arity places.now) }
{
    if places.len() != arity as usize {
        return Err(FactFault::Shape);
    }
    Ok(Cube::new(cells(alloc, places)?))
}
