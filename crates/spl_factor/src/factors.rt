// Factorisations.
ghost use Rattle.std.specs.Prelude.{◌≡◌, ◌≢◌, [], IfOk, slice_index};
ghost use Rattle.theory_rings.specs.Sum.{at};
ghost use Rattle.theory_rings.specs.Polynomial.{degree, IsTrimmed};
ghost use Rattle.spl_field.specs.SmallField.{small_ops};
ghost use Rattle.spl_poly.specs.Operations.{IsOver};
ghost use Rattle.spl_factor.specs.Factorisation.{AreFactors, IsMultipleOfProduct};

use crate::degrees::factors_of;
use spl_field::field::NoMemory;
use spl_field::list::List;
use spl_field::small::SmallField;
use spl_poly::poly::Poly;
use std::alloc::Global;

/// Polynomials with exponents.
pub type FactorList = List<(Poly, usize)>;

/// The leading coefficient and the monic irreducible factors of a polynomial, which strictly increase, with their
/// exponents.
#[derive(Drop)]
pub struct Factors {
    pub leading: u8,
    pub list: FactorList,
}

/// The leading coefficient.
fn leading_of(a: &Poly) -> u8
    requires { a.now ≢ [] }
    ensures value { result ≡ slice_index a.now (degree a.now) }
    ensures trimmed { IsTrimmed 0 a.now }
{
    let _ = a.degree();
    let coefficients = a.as_slice();
    coefficients[coefficients.len() - 1]
}

/// The factors of a polynomial other than 0. The one fault is want of memory.
pub fn factor(alloc: Global, f: &SmallField, a: &Poly) -> Result<Factors, NoMemory>
    requires over { IsOver (small_ops f.now) a.now }
    requires nonzero { a.now ≢ [] }
    ensures leading { IfOk result (λ r. r.leading ≡ at (small_ops f.now) a.now (degree a.now)) }
    ensures factors { IfOk result (λ r. AreFactors (small_ops f.now) r.list) }
    ensures product { IfOk result (λ r. IsMultipleOfProduct (small_ops f.now) a.now r.leading r.list) }
{
    let leading = leading_of(a);
    let list = factors_of(alloc, f, a.monic(alloc, f)?)?;
    Ok(Factors {
        leading,
        list: List::from_vec(list),
    })
}
