// The factors that are found, and what is left.
ghost use Rattle.std.specs.Prelude.{◌≡◌, ◌≢◌, ℕ, List, [], ◌∷◌, ◌<◌, ◌≤◌, length, IfOk, IsTrue, ◌↔◌, slice_index_or};
ghost use Rattle.std.specs.declared.cmp.Ordering.TheVariants.{Less};
ghost use Rattle.spl_field.specs.SmallField.{small_ops};
ghost use Rattle.theory_remainders.specs.Irreducible.{IsIrreducible};
ghost use Rattle.spl_poly.specs.Order.{poly_cmp};
ghost use Rattle.spl_factor.specs.Steps.{IsMonicList, DividesList, IsWork, IsNext};

use crate::gcd::divide_out;
use spl_field::field::NoMemory;
use spl_field::small::SmallField;
use spl_poly::order::{order_law, order_of};
use spl_poly::poly::Poly;
use std::alloc::Global;
use std::cmp::Ordering;

/// The factors that are found, in order, and the polynomial that is left.
#[derive(Drop)]
pub(crate) struct Work {
    pub(crate) rest: Poly,
    pub(crate) list: Vec<(Poly, usize)>,
}

/// Whether a comes before b.
fn comes_before(a: &Poly, b: &Poly) -> bool
    ensures { IsTrue result ↔ (poly_cmp a.now b.now ≡ Less) }
{
    match order_of(a, b) {
        Ordering::Less => true,
        Ordering::Equal => false,
        Ordering::Greater => false,
    }
}

/// The number of polynomials at the head of the list that come before p.
fn place(list: &[(Poly, usize)], p: &Poly) -> usize
    ensures within { result ≤ length list.now }
    ensures before { (i : ℕ) (d : (List ℕ) × ℕ) → i < result → poly_cmp (slice_index_or list.now i d).0 p.now ≡ Less }
    ensures next { (d : (List ℕ) × ℕ) → result < length list.now
        → poly_cmp (slice_index_or list.now result d).0 p.now ≢ Less }
{
    for i in 0..list.len() {
        if !comes_before(&list[i].0, p) {
            return i;
        }
    }
    list.len()
}

/// Divides the rest by an irreducible polynomial as often as it goes, and puts it in its place of the list.
pub(crate) fn take(alloc: Global, f: &SmallField, p: Poly, work: Work) -> Result<Work, NoMemory>
    requires list { IsMonicList f.now p }
    requires irreducible { IsIrreducible (small_ops f.now) p }
    requires work { IsWork f.now work.rest work.list.items }
    ensures next { IfOk result (λ w. IsNext f.now work.rest work.list.items w.rest w.list.items) }
    ensures fewer { IfOk result (λ w. DividesList f.now p work.rest → length w.rest < length work.rest) }
{
    order_law();
    let Work { rest, mut list } = work;
    let divided = divide_out(alloc, f, rest, &p)?;
    if divided.exponent == 0 {
        return Ok(Work {
            rest: divided.rest,
            list,
        });
    }
    let i = place(list.as_slice(), &p);
    list.insert(i, (p, divided.exponent))?;
    Ok(Work {
        rest: divided.rest,
        list,
    })
}
