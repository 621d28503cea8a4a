// Tables.
ghost use Rattle.std.specs.Prelude.{◌≡◌, ◌≢◌, ℕ, ◌*◌, ◌%◌, ◌<◌, ◌≤◌, length, All, IfOk};
ghost use Rattle.theory_rings.specs.Ops.{IsElem};
ghost use Rattle.spl_field.specs.SmallField.{characteristic, modulus_of, small_ops};
ghost use Rattle.spl_fraction.specs.Fractions.{field_of as base_of};
ghost use Rattle.spl_fraction.specs.FractionsOver.{fractions_over};

use spl_algebra::algebra::{Algebra, Constants};
use spl_field::field::NoMemory;
use spl_field::small::SmallField;
use spl_fraction::field::Fractions;
use spl_fraction::laws::elements_are_lowest_terms;
use std::alloc::Global;

/// A table: the rational functions over a field of 2 to 256 elements, a degree n from 2 to 5 that its characteristic
/// doesn't divide, and an algebra of dimension n² over the rational functions.
#[derive(Drop)]
pub struct Table {
    fractions: Fractions,
    degree: usize,
    algebra: Algebra<Fractions>,
    ghost degree_low: { 2 ≤ degree },
    ghost degree_high: { degree ≤ 5 },
    ghost apart: { degree % characteristic (base_of fractions) ≢ 0 },
    ghost dim: { algebra.dim ≡ degree * degree },
    ghost count: { length algebra.constants ≡ algebra.dim * algebra.dim * algebra.dim },
    ghost over: { All (IsElem (fractions_over (base_of fractions))) algebra.constants },
}

impl Table {
    ghost use Rattle.theory_tables.specs.Structure.{IsOver};
    ghost use Rattle.spl_table.specs.Table.{fractions_of, field_of, degree_of, algebra_of, ops_of};

    /// The table of a field of fractions, a degree n and n⁶ constants: that at the basis elements i, j and k, counted
    /// from 0, stands at (i·m + j)·m + k, where m is n².
    pub(crate) fn of(
        alloc: Global,
        fractions: Fractions,
        n: usize,
        constants: Constants<Fractions>,
    ) -> Result<Table, NoMemory>
        requires low { 2 ≤ n }
        requires high { n ≤ 5 }
        requires apart { n % characteristic (base_of fractions) ≢ 0 }
        requires full { length constants ≡ n * n * (n * n) * (n * n) }
        requires over { All (IsElem (fractions_over (base_of fractions))) constants }
        ensures fractions { IfOk result (λ t. fractions_of t ≡ fractions) }
        ensures degree { IfOk result (λ t. degree_of t ≡ n) }
        ensures algebra { IfOk result (λ t. algebra_of t ≡ record { dim = n * n; constants = constants }) }
    {
        let algebra = Algebra::new(alloc, &fractions, n * n, constants)?;
        Ok(Table {
            fractions,
            degree: n,
            algebra,
        })
    }

    /// The table of a field, a degree n and n⁶ constants, which are fractions over the field: that at the basis
    /// elements i, j and k, counted from 0, stands at (i·m + j)·m + k, where m is n². The one fault is want of memory.
    pub fn new(
        alloc: Global,
        field: SmallField,
        n: usize,
        constants: Constants<Fractions>,
    ) -> Result<Table, NoMemory>
        requires low { 2 ≤ n }
        requires high { n ≤ 5 }
        requires apart { n % characteristic field ≢ 0 }
        requires full { length constants ≡ n * n * (n * n) * (n * n) }
        requires over { All (IsElem (fractions_over field)) constants }
        ensures p { IfOk result (λ t. characteristic (field_of t) ≡ characteristic field) }
        ensures modulus { IfOk result (λ t. modulus_of (field_of t) ≡ modulus_of field) }
        ensures ops { IfOk result (λ t. small_ops (field_of t) ≡ small_ops field) }
        ensures degree { IfOk result (λ t. degree_of t ≡ n) }
        ensures algebra { IfOk result (λ t. algebra_of t ≡ record { dim = n * n; constants = constants }) }
    {
        let fractions = Fractions::over(alloc, &field)?;
        elements_are_lowest_terms(&field);
        elements_are_lowest_terms(fractions.field());
        Table::of(alloc, fractions, n, constants)
    }

    /// The field that the coefficients of the fractions are elements of.
    pub fn field(&self) -> &SmallField
        ensures { result.now ≡ field_of self.now }
    {
        self.fractions.field()
    }

    /// The field of fractions.
    pub fn fractions(&self) -> &Fractions
        ensures { result.now ≡ fractions_of self.now }
    {
        &self.fractions
    }

    /// The degree n.
    pub fn degree(&self) -> usize
        ensures degree { result ≡ degree_of self.now }
        ensures low { 2 ≤ result }
        ensures high { result ≤ 5 }
    {
        self.degree
    }

    /// The algebra, of dimension n².
    pub fn algebra(&self) -> &Algebra<Fractions>
        ensures algebra { result.now ≡ algebra_of self.now }
        ensures dim { result.now.dim ≡ degree_of self.now * degree_of self.now }
        ensures over { IsOver (ops_of self.now) result.now }
    {
        &self.algebra
    }
}
