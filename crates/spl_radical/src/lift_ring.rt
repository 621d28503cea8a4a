// The lift ring of a residue field.
ghost use Rattle.std.specs.Prelude.{◌≡◌, ◌-◌, ◌*◌, ◌/◌, ◌%◌, ◌<◌, ◌≤◌, ◌^◌, [], length, get_or, All, IfOk};
ghost use Rattle.theory_rings.specs.Ops.{IsElem};
ghost use Rattle.theory_rings.specs.Digits.{digit};
ghost use Rattle.theory_rings.specs.Sum.{sum, table};
ghost use Rattle.theory_rings.specs.Naturals.{nat_monoid};
ghost use Rattle.theory_spaces.specs.Matrix.{mat_trace};
ghost use Rattle.theory_chains.specs.NumberRows.{AreNumbers, AreRows};
ghost use Rattle.spl_residue.specs.Residue.{residue_ops};
ghost use Rattle.spl_radical.specs.LiftRing.{prime_of, size_of, digits_of, width_of, coefficient_of, AreStepsOf};
ghost use Rattle.spl_radical.specs.LiftRing.{AreColumns, lifted, ring_of};
ghost use Rattle.spl_radical.specs.LiftMatrices.{IsLiftMatrix, matrix_of};
ghost use Rattle.spl_radical.specs.LiftRing.{IsLiftElem, IsLiftSum, IsLiftProduct, IsLiftOf};

use crate::digits::{digits_of, power_of, sums_of};
use crate::multiples::multiples;
use crate::rows::{columns_of, combination, diagonal_of};
use crate::turns::{back_of, first_turn, turns_of};
use spl_field::field::NoMemory;
use spl_field::list::List;
use spl_residue::elem::ResidueElem;
use spl_residue::field::ResidueField;
use std::alloc::{AllocError, Global};
use std::marker::Model;

/// A ring that is free over the integers modulo p^(l + 1), and has the residue field as its ring modulo p: with the
/// field F_q[x]/(π), q = p^d, it is (Z/p^(l + 1))[t]/(f)[x]/(g), where f has the numbers of the modulus of F_q, and the
/// numbers of g are the digits of the coefficients of π, made monic. (Rónyai, Computing the structure of finite
/// algebras; McDonald, Finite Rings with Identity, for Galois rings.)
#[derive(Drop)]
pub struct LiftRing<'k> {
    field: &'k ResidueField,
    l: u32,
    modulus: u64,
    digits: usize,
    width: usize,
    ghost size: { modulus ≡ size_of field.now l },
    ghost small: { modulus ≤ 2 ^ 40 },
    ghost digits_is: { digits ≡ digits_of field.now },
    ghost width_is: { width ≡ width_of field.now },
    back: List<u64>,
    turns: List<List<u64>>,
    ghost steps: { AreStepsOf field.now l back turns },
}

/// An element of a lift ring, by its numbers below p^(l + 1): number u·d + v is the coefficient at x^u·t^v. Of which
/// ring it is an element is a condition of the calls that take it.
pub struct LiftElem {
    numbers: List<u64>,
}

// (one proof for all functions that drop an element, in place of one in each)
impl Drop for LiftElem {
    fn drop(self) {
        let LiftElem { numbers } = self;
    }
}

impl Model for LiftElem {
    ghost use Rattle.std.specs.Prelude.{ℕ, List};

    ghost Value = { List ℕ };

    ghost view = { λ a. a.numbers };
}

impl LiftElem {
    /// The numbers. It takes no memory.
    pub fn numbers(&self) -> &[u64]
        ensures { result.now ≡ self.now }
    {
        self.numbers.as_slice()
    }
}

/// The numbers of x^e: the opposites modulo q of the digits of the coefficients of the polynomial, made monic.
fn first_turn_of(
    alloc: Global,
    k: &ResidueField,
    q: u64,
    width: usize,
) -> Result<List<u64>, NoMemory>
    requires { 1 ≤ q }
    ensures { IfOk result (λ r. r ≡ table width (λ t.
        (q - digit (prime_of k.now) (coefficient_of k.now (t / digits_of k.now)) (t % digits_of k.now) % q) % q)) }
{
    let f = k.field();
    let monic = k.modulus().monic(alloc, f)?;
    let digits = f.modulus().len();
    Ok(first_turn(alloc, q, u64::from(f.p()), digits, width, monic.as_slice())?)
}

impl<'k> LiftRing<'k> {
    ghost use Rattle.spl_radical.specs.LiftNumbers.{residues_of, level_of};

    /// The lift ring of k with the integers modulo p^(l + 1). The one fault is want of memory.
    pub fn new(alloc: Global, k: &'k ResidueField, l: u32) -> Result<LiftRing<'k>, NoMemory>
        requires { size_of k.now l ≤ 2 ^ 40 }
        ensures field { IfOk result (λ r. residues_of r ≡ k.now) }
        ensures level { IfOk result (λ r. level_of r ≡ l) }
    {
        let f = k.field();
        let modulus = power_of(u64::from(f.p()), l);
        let digits = f.modulus().len();
        let degree = k.modulus().as_slice().len() - 1;
        let Some(width) = degree.checked_mul(digits) else {
            return Err(NoMemory::from(AllocError));
        };
        let back = back_of(alloc, modulus, f.modulus())?;
        let first = first_turn_of(alloc, k, modulus, width)?;
        let turns = turns_of(alloc, modulus, back.as_slice(), first)?;
        Ok(LiftRing {
            field: k,
            l,
            modulus,
            digits,
            width,
            back,
            turns,
        })
    }

    /// The columns by which rows of elements are multiplied by the matrix with these rows of elements, which has n
    /// numbers in a row. The one fault is want of memory.
    pub(crate) fn columns(
        &self,
        alloc: Global,
        rows: &[List<u64>],
        n: usize,
    ) -> Result<List<List<u64>>, NoMemory>
        requires rows { AreRows (size_of (residues_of self.now) (level_of self.now))
            (length rows.now * width_of (residues_of self.now)) rows.now }
        requires count { n ≡ length rows.now * width_of (residues_of self.now) }
        ensures { IfOk result (AreColumns (residues_of self.now) (level_of self.now) rows.now) }
    {
        let back = self.back.as_slice();
        let turns = self.turns.as_slice();
        let all = multiples(alloc, self.modulus, self.width, back, turns, rows, n)?;
        Ok(columns_of(alloc, all.as_slice(), n)?)
    }

    /// The sums of the products of the numbers of a row and those of each column.
    pub(crate) fn row_times(
        &self,
        alloc: Global,
        row: &[u64],
        columns: &[List<u64>],
    ) -> Result<List<u64>, NoMemory>
        requires row { AreNumbers (size_of (residues_of self.now) (level_of self.now))
            (length columns.now) row.now }
        requires columns { AreRows (size_of (residues_of self.now) (level_of self.now))
            (length columns.now) columns.now }
        ensures { IfOk result (λ r. r ≡ table (length columns.now) (λ t. sum nat_monoid (length columns.now)
            (λ r. get_or row.now r 0 * get_or (get_or columns.now t []) r 0)
            % size_of (residues_of self.now) (level_of self.now))) }
    {
        Ok(combination(alloc, self.modulus, row, columns)?)
    }

    /// The sum of the elements on the diagonal of a matrix with these rows. The one fault is want of memory.
    pub(crate) fn trace(&self, alloc: Global, rows: &[List<u64>]) -> Result<LiftElem, NoMemory>
        requires { IsLiftMatrix (residues_of self.now) (level_of self.now) (length rows.now) rows.now }
        ensures { IfOk result (λ r. r ≡ (mat_trace (ring_of (residues_of self.now) (level_of self.now)).ring
            (length rows.now) (matrix_of (residues_of self.now) (level_of self.now) rows.now)).0) }
    {
        let numbers = diagonal_of(alloc, self.modulus, self.width, rows)?;
        Ok(LiftElem { numbers })
    }

    /// The residue field. It takes no memory.
    pub(crate) fn residues(&self) -> &ResidueField
        ensures { result.now ≡ residues_of self.now }
    {
        self.field
    }

    /// The lift of an element whose numbers are from 0 to p − 1, which are the digits of its coefficients. The one
    /// fault is want of memory.
    pub fn lift(&self, alloc: Global, a: &ResidueElem) -> Result<LiftElem, NoMemory>
        requires { IsElem (residue_ops (residues_of self.now)) a.now }
        ensures elem { IfOk result (IsLiftElem (residues_of self.now) (level_of self.now)) }
        ensures small { IfOk result (All (λ x. x < prime_of (residues_of self.now))) }
        ensures value { IfOk result (IsLiftOf (residues_of self.now) (level_of self.now) a.now) }
        ensures digits { IfOk result (λ r. r ≡ (lifted (residues_of self.now) (level_of self.now) a.now).0) }
    {
        let poly = self.field.lift(alloc, a)?;
        let p = u64::from(self.field.field().p());
        let numbers = digits_of(alloc, p, self.digits, self.width, poly.as_slice())?;
        Ok(LiftElem { numbers })
    }

    /// The sum. The one fault is want of memory.
    pub fn add(&self, alloc: Global, a: &LiftElem, b: &LiftElem) -> Result<LiftElem, NoMemory>
        requires left { IsLiftElem (residues_of self.now) (level_of self.now) a.now }
        requires right { IsLiftElem (residues_of self.now) (level_of self.now) b.now }
        ensures elem { IfOk result (IsLiftElem (residues_of self.now) (level_of self.now)) }
        ensures value { IfOk result (IsLiftSum (residues_of self.now) (level_of self.now) a.now b.now) }
    {
        let numbers = sums_of(alloc, self.modulus, a.numbers(), b.numbers())?;
        Ok(LiftElem { numbers })
    }

    /// The product. The one fault is want of memory.
    pub fn mul(&self, alloc: Global, a: &LiftElem, b: &LiftElem) -> Result<LiftElem, NoMemory>
        requires left { IsLiftElem (residues_of self.now) (level_of self.now) a.now }
        requires right { IsLiftElem (residues_of self.now) (level_of self.now) b.now }
        ensures elem { IfOk result (IsLiftElem (residues_of self.now) (level_of self.now)) }
        ensures value { IfOk result (IsLiftProduct (residues_of self.now) (level_of self.now) a.now b.now) }
    {
        let mut rows = List::new(alloc);
        rows.push(List::from_slice(alloc, b.numbers())?)?;
        let columns = self.columns(alloc, rows.as_slice(), self.width)?;
        let numbers = combination(alloc, self.modulus, a.numbers(), columns.as_slice())?;
        Ok(LiftElem { numbers })
    }
}
