// Parts by the degree of their factors.
ghost use Rattle.std.specs.Prelude.{◌≡◌, ◌≢◌, ℕ, suc, [], ◌∷◌, ◌<◌, ◌≤◌, length, IfOk};
ghost use Rattle.theory_factors.specs.Parts.{HasDivisorsFrom};
ghost use Rattle.theory_fractions.specs.PolynomialLists.{IsPolynomialList};
ghost use Rattle.spl_field.specs.SmallField.{small_ops};
ghost use Rattle.theory_rings.specs.Polynomial.{degree as degree_in};
ghost use Rattle.theory_remainders.specs.Irreducible.{IsIrreducible};
ghost use Rattle.spl_factor.specs.Factorisation.{AreFactors};
ghost use Rattle.spl_factor.specs.Steps.{field, ring, poly, product_of_powers, IsMonicList, IsPartList, IsWork, IsNext};
ghost use Rattle.spl_factor.specs.Steps.{DividesList, IsVariablePower};

use crate::gcd::{degree_of, gcd};
use crate::powers::{less_variable, raised, variable};
use crate::splitting::proper_factor;
use crate::work::{Work, take};
use spl_field::field::NoMemory;
use spl_field::small::SmallField;
use spl_poly::poly::Poly;
use std::alloc::Global;

/// Divides the rest by each irreducible factor of g, all of which have the same degree.
fn take_part(
    alloc: Global,
    f: &SmallField,
    degree: usize,
    g: Poly,
    work: Work,
) -> Result<Work, NoMemory>
    requires degree { 1 ≤ degree }
    requires part { IsPartList f.now degree g }
    requires not_constant { 1 < length g }
    requires work { IsWork f.now work.rest work.list.items }
    ensures next { IfOk result (λ w. IsNext f.now work.rest work.list.items w.rest w.list.items) }
    ensures fewer { IfOk result (λ w. DividesList f.now g work.rest → length w.rest < length work.rest) }
{
    if degree_of(&g) / 2 < degree {
        return Ok(take(alloc, f, g, work)?);
    }
    let factor = proper_factor(alloc, f, degree, &g)?;
    let quotient = g.divide(alloc, f, &factor)?.quotient;
    let part = take_part(alloc, f, degree, factor, work)?;
    Ok(take_part(alloc, f, degree, quotient, part)?)
}

/// Divides the rest by its irreducible factors of one degree d; power is x^(q^d) modulo the rest, for a field of q
/// elements.
fn take_degree(
    alloc: Global,
    f: &SmallField,
    degree: usize,
    power: &Poly,
    work: Work,
) -> Result<Work, NoMemory>
    requires degree { 1 ≤ degree }
    requires work { IsWork f.now work.rest work.list.items }
    requires divisors { HasDivisorsFrom (field f.now) (ring f.now) degree (poly f.now work.rest) }
    requires polynomial { IsPolynomialList (small_ops f.now) power.now }
    requires power { IsVariablePower f.now work.rest degree power.now }
    ensures next { IfOk result (λ w. IsNext f.now work.rest work.list.items w.rest w.list.items) }
    ensures divisors { IfOk result
        (λ w. HasDivisorsFrom (field f.now) (ring f.now) (suc degree) (poly f.now w.rest)) }
{
    let difference = less_variable(alloc, f, power)?;
    let mut work = work;
    let mut part = gcd(alloc, f, &work.rest, &difference)?;
    'steps: while part.as_slice().len() > 1 {
        work = take_part(alloc, f, degree, part, work)?;
        part = gcd(alloc, f, &work.rest, &difference)?;
    }
    Ok(work)
}

/// Takes the factors of degree 1, 2, .. from a monic polynomial until what is left is a constant or irreducible: it has
/// no divisors of smaller degree than half of its own.
fn split_by_degrees(alloc: Global, f: &SmallField, a: Poly) -> Result<Work, NoMemory>
    requires { IsMonicList f.now a }
    ensures next { IfOk result (λ w. IsNext f.now a [] w.rest w.list.items) }
    ensures last { IfOk result (λ w. 1 ≤ degree_in w.rest → IsIrreducible (small_ops f.now) w.rest) }
{
    let mut power = variable(alloc)?;
    let mut degree = 1;
    let mut work = Work {
        rest: a,
        list: Vec::new(alloc),
    };
    'degrees: while degree <= degree_of(&work.rest) / 2 {
        power = raised(alloc, f, &power, &work.rest)?;
        work = take_degree(alloc, f, degree, &power, work)?;
        degree += 1;
    }
    Ok(work)
}

/// The factors of a monic polynomial.
pub(crate) fn factors_of(
    alloc: Global,
    f: &SmallField,
    a: Poly,
) -> Result<Vec<(Poly, usize)>, NoMemory>
    requires { IsMonicList f.now a }
    ensures factors { IfOk result (λ v. AreFactors (small_ops f.now) v.items) }
    ensures product { IfOk result (λ v. product_of_powers f.now v.items ≡ poly f.now a) }
{
    let work = split_by_degrees(alloc, f, a)?;
    if work.rest.as_slice().len() <= 1 {
        return Ok(work.list);
    }
    let p = work.rest.copy(alloc, f)?;
    Ok(take(alloc, f, p, work)?.list)
}
