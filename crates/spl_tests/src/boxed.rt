// Calls over a field whose elements own memory.
ghost use Rattle.std.specs.Prelude.{◌≡◌, IfOk};
ghost use Rattle.theory_spaces.specs.Tuples.{IsTuple};

use spl_field::field::{Field, NoMemory};
use spl_field::list::{List, Vector};
use spl_field::small::SmallField;
use spl_matrix::matrix::Matrix;
use spl_matrix::solve::Solution;
use std::alloc::Global;
use std::marker::Model;
use std::test::Fail;

/// An element of the field F in a box.
#[derive(Drop)]
pub struct Held<F: Field> {
    item: Box<F::Elem>,
}

impl<F: Field> Model for Held<F> {
    ghost Value = { F.Elem };

    ghost view = { λ h. h.item.value };
}

fn hold<F: Field>(alloc: Global, item: F::Elem) -> Result<Held<F>, NoMemory>
    ensures { IfOk result (λ r. r ≡ item) }
{
    Ok(Held {
        item: Box::new(alloc, item)?,
    })
}

/// The field F with each element in a box of its own.
#[derive(Drop)]
pub struct Boxed<F: Field + Drop> {
    pub field: F,
}

impl<F: Field + Drop> Field for Boxed<F> {
    type Elem = Held<F>;

    ghost ops = { λ f. F.ops f.field };

    ghost laws = { λ f. F.laws f.field };

    ghost same_zero = { λ f g. F.same_zero f.field g.field };

    fn zero(&self, alloc: Global) -> Result<Held<F>, NoMemory> {
        hold(alloc, self.field.zero(alloc)?)
    }

    fn one(&self, alloc: Global) -> Result<Held<F>, NoMemory> {
        hold(alloc, self.field.one(alloc)?)
    }

    fn add(&self, alloc: Global, a: &Held<F>, b: &Held<F>) -> Result<Held<F>, NoMemory> {
        hold(alloc, self.field.add(alloc, &a.item, &b.item)?)
    }

    fn neg(&self, alloc: Global, a: &Held<F>) -> Result<Held<F>, NoMemory> {
        hold(alloc, self.field.neg(alloc, &a.item)?)
    }

    fn mul(&self, alloc: Global, a: &Held<F>, b: &Held<F>) -> Result<Held<F>, NoMemory> {
        hold(alloc, self.field.mul(alloc, &a.item, &b.item)?)
    }

    fn inv(&self, alloc: Global, a: &Held<F>) -> Result<Option<Held<F>>, NoMemory> {
        match self.field.inv(alloc, &a.item)? {
            Some(inverse) => Ok(Some(hold(alloc, inverse)?)),
            None => Ok(None),
        }
    }

    fn copy(&self, alloc: Global, a: &Held<F>) -> Result<Held<F>, NoMemory> {
        hold(alloc, self.field.copy(alloc, &a.item)?)
    }

    fn eq(&self, a: &Held<F>, b: &Held<F>) -> bool {
        self.field.eq(&a.item, &b.item)
    }
}

/// The vector (1, 1), or the vector (0, 1).
fn row<F: Field>(alloc: Global, f: &F, first: bool) -> Result<Vector<F>, NoMemory>
    ensures { IfOk result (IsTuple (F.ops f.now) 2) }
{
    let mut items = List::new(alloc);
    items.push(if first { f.one(alloc)? } else { f.zero(alloc)? })?;
    items.push(f.one(alloc)?)?;
    Ok(items)
}

/// Whether `solve` finds that (1, 1), (0, 1) sends (0, 1) to (1, 1).
fn solves<F: Field>(alloc: Global, f: &F) -> Result<bool, NoMemory> {
    let mut rows = Matrix::new(alloc);
    rows.push(row(alloc, f, true)?)?;
    rows.push(row(alloc, f, false)?)?;
    match rows.solve(alloc, f, row(alloc, f, true)?.as_slice())? {
        Solution::Solved { vector } => {
            let zero = f.zero(alloc)?;
            Ok(vector.at(0).is_some_and(|item| f.eq(item, &zero)))
        }
        Solution::Refuted { .. } => Ok(false),
    }
}

#[test]
fn elements_may_own_memory(rt: HostRuntime) -> Result<(), Fail> {
    let field = SmallField::new(rt.alloc(), 3, &[0])?;
    assert!(rt; solves(rt.alloc(), &Boxed { field })?);
    Ok(())
}
