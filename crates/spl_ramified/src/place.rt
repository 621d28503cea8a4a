// Whether a polynomial, or infinity, is a place.
ghost use Rattle.std.specs.Prelude.{◌≡◌, ◌↔◌, ℕ, List, IfOk, IsTrue};
ghost use Rattle.spl_field.specs.SmallField.{small_ops};
ghost use Rattle.theory_fractions.specs.PolynomialLists as polynomials;
ghost use Rattle.theory_places.specs.FractionPlaces.{IsPlace, IsMonicIrreducible};
ghost use Rattle.spl_fraction.specs.declared.place.Place.TheVariants.{Finite};
ghost use Rattle.spl_fraction.specs.Place.{place_of};

use spl_field::field::NoMemory;
use spl_field::small::SmallField;
use spl_fraction::place::Place;
use spl_poly::poly::Poly;
use spl_residue::irreducible::is_irreducible;
use std::alloc::Global;

/// Whether a polynomial is monic and irreducible. Its memory is linear in the polynomial.
fn is_monic_irreducible(alloc: Global, f: &SmallField, p: &Poly) -> Result<bool, NoMemory>
    requires { polynomials.IsOver (small_ops f.now) p.now }
    ensures { IfOk result (λ t. IsTrue t ↔ IsMonicIrreducible (small_ops f.now) p.now) }
{
    if !is_irreducible(alloc, f, p)? {
        return Ok(false);
    }
    let degree = p.degree().unwrap();
    let leading = *p.coefficient(degree).unwrap();
    Ok(leading == 1)
}

/// Whether it is infinity or a monic irreducible polynomial. The one fault is want of memory.
pub fn is_place(alloc: Global, f: &SmallField, place: &Place) -> Result<bool, NoMemory>
    requires { (p : List ℕ) → place.now ≡ Finite p → polynomials.IsOver (small_ops f.now) p }
    ensures { IfOk result (λ t. IsTrue t ↔ IsPlace (small_ops f.now) (place_of place.now)) }
{
    match place {
        Place::Finite { poly } => is_monic_irreducible(alloc, f, poly),
        Place::Infinity => Ok(true),
    }
}
