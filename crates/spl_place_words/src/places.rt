// Places of the rational functions, as arguments: `infinity`, or a monic irreducible polynomial.
ghost use Rattle.std.specs.Prelude.{◌≡◌, ℕ, List, IfOk};
ghost use Rattle.spl_field.specs.SmallField.{small_ops};
ghost use Rattle.spl_fraction.specs.Fractions.{field_of};
ghost use Rattle.spl_fraction.specs.Place.{place_of};
ghost use Rattle.spl_fraction.specs.declared.place.Place.TheVariants.{Finite};
ghost use Rattle.theory_fractions.specs.PolynomialLists.{IsOver};
ghost use Rattle.theory_places.specs.FractionPlaces.{IsPlace, IsMonicIrreducible};

use spl_field::small::SmallField;
use spl_fraction::field::Fractions;
use spl_fraction::place::Place;
use spl_poly::poly::Poly;
use spl_ramified::place::is_place;
use spl_words::args;
use spl_words::fault::Fault;
use std::alloc::Global;

/// `infinity`, or a polynomial, which need not be a place.
fn candidate(alloc: Global, f: &SmallField, word: &str) -> Result<Place, Fault>
    ensures { IfOk result (λ r. (p : List ℕ) → r ≡ Finite p → IsOver (small_ops f.now) p) }
{
    if word == "infinity" {
        return Ok(Place::Infinity);
    }
    let poly = args::poly(alloc, f, word)?;
    Ok(Place::Finite { poly })
}

/// A place.
pub(crate) fn place(alloc: Global, k: &Fractions, word: &str) -> Result<Place, Fault>
    ensures { IfOk result (λ r. IsPlace (small_ops (field_of k.now)) (place_of r)) }
{
    let f = k.field();
    let place = candidate(alloc, f, word)?;
    if !is_place(alloc, f, &place)? {
        return Err(Fault::BadLine);
    }
    Ok(place)
}

/// The polynomial of a finite place.
pub(crate) fn finite(alloc: Global, k: &Fractions, word: &str) -> Result<Poly, Fault>
    ensures { IfOk result (IsMonicIrreducible (small_ops (field_of k.now))) }
{
    match place(alloc, k, word)? {
        Place::Finite { poly } => Ok(poly),
        Place::Infinity => Err(Fault::BadLine),
    }
}
