//! The fields of facts, from those of parts.

ghost use Rattle.std.specs.Prelude.{◌≡◌, ◌<◌, ◌+◌, ◌^◌, suc, IfOk, map};
ghost use Rattle.cert_structure.specs.Order.{cell_of};

use bool_diagrams::{Cell, Cube};
use certificate::CertCell;
use sequences::Sequence;
use std::alloc::{AllocError, Global};

/// The number from 1 of an item that counts from 0. Where it has more than 32 bits this is out of memory: no program
/// has so many clauses, calls or mappings.
pub fn counted(number: u64) -> Result<u32, AllocError>
    requires { number + 1 < 2 ^ 64 }
    ensures { IfOk result (λ n. n ≡ suc number) }
{
    u32::try_from(number + 1).map_err(|_| AllocError)
}

/// Numbers, for a fact.
pub fn numbers(alloc: Global, numbers: &[i128]) -> Result<Sequence<i128>, AllocError>
    ensures { IfOk result (λ copy. copy ≡ numbers.now) }
{
    Ok(Sequence::from_vec(Vec::from_slice(alloc, numbers)?))
}

/// A cell of a cube, for a fact.
fn cell(cell: Cell) -> CertCell
    ensures { result ≡ cell_of cell }
{
    match cell {
        Cell::Zero => CertCell::Zero,
        Cell::One => CertCell::One,
        Cell::Any => CertCell::Any,
    }
}

/// A cube, for a fact.
pub fn cells(alloc: Global, cube: &Cube) -> Result<Sequence<CertCell>, AllocError>
    ensures { IfOk result (λ copy. copy ≡ map cell_of cube.now) }
{
    let mut copy = Sequence::new(alloc);
    for place in cube.cells() {
        copy.push(cell(*place))?;
    }
    Ok(copy)
}
