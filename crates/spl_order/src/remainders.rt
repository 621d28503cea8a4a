// Lists of remainders of polynomials.
ghost use Rattle.std.specs.Prelude.{◌≢◌, ◌<◌, ℕ, [], length, get_or, IfOk};
ghost use Rattle.spl_field.specs.SmallField.{small_ops};
ghost use Rattle.theory_fractions.specs.PolynomialLists.{IsPolynomialList};
ghost use Rattle.spl_order.specs.Coordinates.{AreRemainders};

use spl_field::field::NoMemory;
use spl_field::small::SmallField;
use spl_lattice::rows::PolyRow;
use spl_poly::poly::Poly;
use std::alloc::Global;

/// The remainders of polynomials by another, which is not 0.
pub(crate) fn remainders(
    alloc: Global,
    f: &SmallField,
    m: &Poly,
    items: &[Poly],
) -> Result<PolyRow, NoMemory>
    requires m { IsPolynomialList (small_ops f.now) m.now }
    requires nonzero { m.now ≢ [] }
    requires items { (p : ℕ) → p < length items.now → IsPolynomialList (small_ops f.now) (get_or items.now p []) }
    ensures { IfOk result (AreRemainders (small_ops f.now) m.now items.now (length items.now)) }
{
    let mut rest = PolyRow::new(alloc);
    for p in 0..items.len() {
        rest.push(items[p].divide(alloc, f, m)?.remainder)?;
    }
    Ok(rest)
}
