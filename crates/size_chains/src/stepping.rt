//! A step of the chain.

ghost use Rattle.std.specs.Prelude.{◌≡◌, ◌≢◌, ◌<◌, ◌≤◌, ◌^◌, ℕ, suc, IfOk, IfSome, IsTrue, ◌↔◌, length, map, slice_get, [], ◌∷◌, None, Some, true, false, pos};
ghost use Rattle.linear_rows.specs.Plain.{plain_row, plain_rows};
ghost use Rattle.linear_rows.specs.Rows.{AreEmpty};
ghost use Rattle.termination_model.specs.chains.ChainRows.{bottom_row, HasPoint};
ghost use Rattle.linear_rows.specs.Showing.{Shows};
ghost use Rattle.polyhedra.specs.Telling.{IsSystem, HasNaturalHead, IsBlownOn, at_head};
ghost use Rattle.polyhedra.specs.Making.{arity_of, SaysImage, SaysWidened};
ghost use Rattle.size_chains.specs.Filling.{IsFilled};
ghost use Rattle.linear_rows.specs.Members.{In};
ghost use Rattle.linear_rows.specs.Solving.{zeros};
ghost use Rattle.size_chains.specs.Stepping.{IsStepOf, MayBeWeak, HoldsOnImage, IsBottomAt};

use crate::filled::Filled;
use crate::stepped::Stepped;
use linear_rows::{Multipliers, Numbers, Row, System};
use polyhedra::{Domain, Made, Widened, bottom_row};
use sequences::Sequence;
use simplex::Held;
use std::alloc::{AllocError, Global};
use termination_model::How;

/// How many rows a value lists.
fn count<D: Domain>(value: &D) -> usize
    ensures { result ≡ length (D.listed value.now) }
{
    value.rows().list.len()
}

/// A weak step: of the old rows these are kept.
fn kept_weakly<D: Domain>(
    system: &System,
    old: &D,
    filled: Filled,
    kept: Widened<D>,
    image: &D,
    pass: u32,
) -> Stepped<D>
    requires system { IsSystem system.now }
    requires filled { IsFilled (arity_of system.now) filled (D.listed old.now) }
    requires begun { filled ≢ Filled.Bottom }
    requires width { D.width kept.value ≡ arity_of system.now }
    requires kept { SaysWidened D.listed system.now old.now kept }
    requires licence { MayBeWeak system.now pass (D.listed old.now) (D.listed image.now) }
    ensures { IsStepOf D.width D.listed D.speaks system.now pass old.now image.now filled result }
{
    if count(old) == count(&kept.value) {
        return Stepped {
            how: How::Keep,
            weak: true,
            next: None,
            filled,
            by: kept.by,
        };
    }
    Stepped {
        how: How::Keep,
        weak: true,
        next: Some(kept.value),
        filled,
        by: kept.by,
    }
}

/// A step whose image is empty leaves the rows, of which each is proved.
fn empty<D: Domain>(
    alloc: Global,
    system: &System,
    old: &D,
    filled: Filled,
    image: &D,
    pass: u32,
    by: Multipliers,
) -> Result<Stepped<D>, AllocError>
    requires system { IsSystem system.now }
    requires old_width { D.width old.now ≡ arity_of system.now }
    requires filled { IsFilled (arity_of system.now) filled (D.listed old.now) }
    requires image { AreEmpty (suc (arity_of system.now)) (D.listed image.now) }
    requires by { Shows (plain_rows system.now.rows.list)
        (at_head system.now (bottom_row (arity_of system.now))) by }
    ensures { IfOk result (IsStepOf D.width D.listed D.speaks system.now pass old.now image.now filled) }
{
    if filled == Filled::Bottom {
        let mut all = Sequence::new(alloc);
        all.push(by)?;
        return Ok(Stepped {
            how: How::None,
            weak: false,
            next: None,
            filled,
            by: all,
        });
    }
    let tested = old.widen(alloc, system)?;
    if count(old) == count(&tested.value) {
        return Ok(Stepped {
            how: How::None,
            weak: false,
            next: None,
            filled,
            by: tested.by,
        });
    }
    Ok(kept_weakly(system, old, filled, tested, image, pass))
}

/// Both the image and the old rows have points.
fn compared<D: Domain>(
    alloc: Global,
    system: &System,
    old: &D,
    image: &D,
    pass: u32,
) -> Result<Stepped<D>, AllocError>
    requires system { IsSystem system.now }
    requires old_width { D.width old.now ≡ arity_of system.now }
    requires image_width { D.width image.now ≡ arity_of system.now }
    requires on_image { HoldsOnImage D.speaks system.now (D.listed image.now) }
    requires old { HasPoint (arity_of system.now) (D.listed old.now) }
    requires image { HasPoint (arity_of system.now) (D.listed image.now) }
    ensures { IfOk result (IsStepOf D.width D.listed D.speaks system.now pass old.now image.now Filled.Inhabited) }
{
    let filled = Filled::Inhabited;
    let kept = old.widen(alloc, system)?;
    if are_joined(kept.failed, pass) {
        return joined(alloc, system, old, image, pass, kept);
    }
    if kept.weak {
        return Ok(kept_weakly(system, old, filled, kept, image, pass));
    }
    if kept.failed {
        return Ok(Stepped {
            how: How::Keep,
            weak: false,
            next: Some(kept.value),
            filled,
            by: kept.by,
        });
    }
    Ok(Stepped {
        how: How::Same,
        weak: false,
        next: None,
        filled,
        by: kept.by,
    })
}

/// Whether rows are joined: one is known to fail, in one of the first three passes.
fn are_joined(failed: bool, pass: u32) -> bool
    ensures { IsTrue result ↔ ((failed ≡ true) × (pass ≤ 3)) }
{
    failed && pass <= 3
}

/// In one of the first three passes an old row is known to fail.
fn joined<D: Domain>(
    alloc: Global,
    system: &System,
    old: &D,
    image: &D,
    pass: u32,
    kept: Widened<D>,
) -> Result<Stepped<D>, AllocError>
    requires system { IsSystem system.now }
    requires old_width { D.width old.now ≡ arity_of system.now }
    requires image_width { D.width image.now ≡ arity_of system.now }
    requires on_image { HoldsOnImage D.speaks system.now (D.listed image.now) }
    requires old { HasPoint (arity_of system.now) (D.listed old.now) }
    requires image { HasPoint (arity_of system.now) (D.listed image.now) }
    requires width { D.width kept.value ≡ arity_of system.now }
    requires kept { SaysWidened D.listed system.now old.now kept }
    requires early { pass ≤ 3 }
    requires failed { kept.failed ≡ true }
    ensures { IfOk result (IsStepOf D.width D.listed D.speaks system.now pass old.now image.now Filled.Inhabited) }
{
    let filled = Filled::Inhabited;
    let join = old.join(alloc, image)?;
    if join.weak {
        return Ok(kept_weakly(system, old, filled, kept, image, pass));
    }
    Ok(Stepped {
        how: How::Join,
        weak: false,
        next: Some(join.value),
        filled,
        by: Sequence::new(alloc),
    })
}

/// The place of the row of constant -1 and zeros, if it is one of these rows.
fn bottom_place(rows: &[Row]) -> Option<usize>
    ensures found { IfSome result (λ i. i < length rows.now) }
    ensures bottom { IfSome result (λ i. IsBottomAt (map plain_row rows.now) i) }
    ensures none { result ≡ None → (n : ℕ) → In (bottom_row n) (map plain_row rows.now) → ⊥ }
{
    for i in 0..rows.len() {
        if is_bottom(&rows[i]) {
            return Some(i);
        }
    }
    None
}

/// Whether a row is that of constant -1 and zeros.
fn is_bottom(row: &Row) -> bool
    ensures { IsTrue result ↔ (plain_row row.now ≡ bottom_row (length row.now.coeffs)) }
{
    row.constant == -1 && are_zeros(&row.coeffs)
}

/// Whether all numbers are 0.
fn are_zeros(numbers: &Numbers) -> bool
    ensures { IsTrue result ↔ (numbers.now ≡ zeros (length numbers.now)) }
{
    for k in 0..numbers.len() {
        if !is_nought(numbers.entry(k)) {
            return false;
        }
    }
    true
}

/// Whether a number is 0.
fn is_nought(x: i128) -> bool
    ensures { IsTrue result ↔ (x ≡ pos 0) }
{
    x == 0
}

/// The image is not empty, or it is weak: it has a point.
fn inhabited<D: Domain>(
    alloc: Global,
    system: &System,
    old: &D,
    filled: Filled,
    image: D,
    pass: u32,
    bottom: &Row,
) -> Result<Stepped<D>, AllocError>
    requires system { IsSystem system.now }
    requires old_width { D.width old.now ≡ arity_of system.now }
    requires image_width { D.width image ≡ arity_of system.now }
    requires on_image { HoldsOnImage D.speaks system.now (D.listed image) }
    requires filled { IsFilled (arity_of system.now) filled (D.listed old.now) }
    requires image { HasPoint (arity_of system.now) (D.listed image) }
    requires bottom { plain_row bottom.now ≡ bottom_row (arity_of system.now) }
    ensures { IfOk result (IsStepOf D.width D.listed D.speaks system.now pass old.now image filled) }
{
    match filled {
        Filled::Bottom => Ok(begun(alloc, system, old, filled, image, pass)),
        Filled::Inhabited => compared(alloc, system, old, &image, pass),
        Filled::Unknown => match old.holds(alloc, bottom)? {
            Held::Yes(_) => Ok(begun(alloc, system, old, filled, image, pass)),
            Held::No(_) => compared(alloc, system, old, &image, pass),
            Held::Blown => {
                let kept = old.widen(alloc, system)?;
                Ok(kept_weakly(system, old, filled, kept, &image, pass))
            }
        },
    }
}

/// The proof at a place.
fn proof_at(proofs: Sequence<Multipliers>, place: usize) -> Multipliers
    requires { place < length proofs }
    ensures { slice_get proofs place ≡ Some result }
{
    let mut items = proofs.into_vec();
    items.swap_remove(place)
}

/// The old rows are empty, and become the image's.
fn begun<D: Domain>(
    alloc: Global,
    system: &System,
    old: &D,
    filled: Filled,
    image: D,
    pass: u32,
) -> Stepped<D>
    requires system { IsSystem system.now }
    requires image_width { D.width image ≡ arity_of system.now }
    requires filled { IsFilled (arity_of system.now) filled (D.listed old.now) }
    requires empty { AreEmpty (suc (arity_of system.now)) (D.listed old.now) }
    requires image { HasPoint (arity_of system.now) (D.listed image) }
    ensures { IsStepOf D.width D.listed D.speaks system.now pass old.now image filled result }
{
    let _few = count(&image);
    Stepped {
        how: How::First,
        weak: false,
        next: Some(image),
        filled: Filled::Inhabited,
        by: Sequence::new(alloc),
    }
}

/// The test of emptiness is blown, and the old rows are the one row of constant -1.
fn begun_weakly<D: Domain>(
    alloc: Global,
    system: &System,
    old: &D,
    image: &Made<D>,
    pass: u32,
) -> Result<Stepped<D>, AllocError>
    requires system { IsSystem system.now }
    requires image_width { D.width image.now.value ≡ arity_of system.now }
    requires image { SaysImage D.speaks system.now (D.listed image.now.value) image.now.weak }
    requires filled { IsFilled (arity_of system.now) Filled.Bottom (D.listed old.now) }
    requires blown { IsBlownOn system.now (bottom_row (arity_of system.now)) }
    ensures { IfOk result (IsStepOf D.width D.listed D.speaks system.now pass old.now image.now.value Filled.Bottom) }
{
    let kept = image.value.widen(alloc, system)?;
    let _few = count(&kept.value);
    match bottom_place(kept.value.rows().list.as_slice()) {
        Some(place) => {
            let mut by = Sequence::new(alloc);
            by.push(proof_at(kept.by, place))?;
            Ok(Stepped {
                how: How::None,
                weak: false,
                next: None,
                filled: Filled::Bottom,
                by,
            })
        }
        None => Ok(Stepped {
            how: How::First,
            weak: true,
            next: Some(kept.value),
            filled: Filled::Unknown,
            by: kept.by,
        }),
    }
}

/// One step, on the system of its clause's body: what becomes of the old rows of the head's predicate.
pub(crate) fn step_on<D: Domain>(
    alloc: Global,
    system: &System,
    old: &D,
    filled: Filled,
    image: Made<D>,
    pass: u32,
) -> Result<Stepped<D>, AllocError>
    requires system { IsSystem system.now }
    requires head { HasNaturalHead system.now }
    requires old_width { D.width old.now ≡ arity_of system.now }
    requires filled { IsFilled (arity_of system.now) filled (D.listed old.now) }
    requires image_width { D.width image.value ≡ arity_of system.now }
    requires image { SaysImage D.speaks system.now (D.listed image.value) image.weak }
    ensures { IfOk result (IsStepOf D.width D.listed D.speaks system.now pass old.now image.value filled) }
{
    let bottom = bottom_row(alloc, system.head.list.len())?;
    match D::holds_on(alloc, system, &bottom)? {
        Held::Blown => {
            if filled == Filled::Bottom {
                begun_weakly(alloc, system, old, &image, pass)
            } else {
                let kept = old.widen(alloc, system)?;
                Ok(kept_weakly(system, old, filled, kept, &image.value, pass))
            }
        }
        Held::Yes(by) => {
            if image.weak {
                inhabited(alloc, system, old, filled, image.value, pass, &bottom)
            } else {
                empty(alloc, system, old, filled, &image.value, pass, by)
            }
        }
        Held::No(_) => inhabited(alloc, system, old, filled, image.value, pass, &bottom),
    }
}
