// Growth of first orders of a table's algebra at all places.
ghost use Rattle.std.specs.Prelude.{◌≡◌, ℕ, List, IfOk};
ghost use Rattle.theory_fractions.specs.Fraction.{Pair};
ghost use Rattle.theory_tables.specs.Structure.{IsAssociative};
ghost use Rattle.theory_tables.specs.Algebras.{IsIdentity, HasSmallCentre};
ghost use Rattle.theory_tables.specs.Traces.{IsNondegenerate};
ghost use Rattle.spl_local.specs.Everywhere as places;
ghost use Rattle.spl_table.specs.Table.{field_of, algebra_of, ops_of};
ghost use Rattle.spl_engine.specs.Kind.{HasNoFault};
ghost use Rattle.spl_engine.specs.Everywhere.{IsEverywhere, HoldFirstOrders};

use spl_algebra::identity::One;
use spl_centre::centre::identity_or_refutation;
use spl_field::field::NoMemory;
use spl_fraction::field::Fractions;
use spl_fraction::place::Place;
use spl_fraction::tuples::{Tuple, Tuples};
use spl_local::everywhere;
use spl_order::basis::Basis;
use spl_table::table::Table;
use std::alloc::Global;

/// The first ramified place, with tuples that span an order there and its radical; or else bases of an order over the
/// polynomials and of one at infinity that are their own duals for the trace at all places.
#[derive(Drop)]
pub enum Everywhere {
    Ramified {
        place: Place,
        order: Tuples,
        radical: Tuples,
    },
    Unimodular {
        finite: Basis,
        infinite: Basis,
    },
}

/// Growth of the first orders of an algebra with this identity.
pub(crate) fn settle_with(alloc: Global, table: &Table, one: &Tuple) -> Result<Everywhere, NoMemory>
    requires no_fault { HasNoFault (ops_of table.now) (algebra_of table.now) }
    requires one { IsIdentity (ops_of table.now) (algebra_of table.now) one.now }
    ensures everywhere { IfOk result (IsEverywhere (field_of table.now) (algebra_of table.now)) }
    ensures first { IfOk result (HoldFirstOrders (field_of table.now) (algebra_of table.now) one.now) }
{
    let f = table.fractions();
    match everywhere::settle_everywhere(alloc, f, table.algebra(), one)? {
        everywhere::Everywhere::Ramified {
            place,
            order,
            radical,
        } => {
            let order = order.tuples(alloc, f)?;
            let radical = radical.tuples(alloc, f)?;
            Ok(Everywhere::Ramified {
                place,
                order,
                radical,
            })
        }
        everywhere::Everywhere::Unimodular { finite, infinite } => {
            Ok(Everywhere::Unimodular { finite, infinite })
        }
    }
}

/// Growth of first orders at all places, where the table's algebra has none of the faults: a first order over the
/// polynomials grows at the finite places in their order, and then one at infinity, each until nothing grows, and up to
/// the first place that is ramified. The orders hold the first orders of the algebra. The one fault is want of memory.
/// (Reiner, Maximal Orders, sections 8, 25 and 39.)
pub fn settle_everywhere(alloc: Global, table: &Table) -> Result<Everywhere, NoMemory>
    requires { HasNoFault (ops_of table.now) (algebra_of table.now) }
    ensures everywhere { IfOk result (IsEverywhere (field_of table.now) (algebra_of table.now)) }
    ensures first { IfOk result (λ r. (one : List (Pair ℕ)) × IsIdentity (ops_of table.now) (algebra_of table.now) one
        × HoldFirstOrders (field_of table.now) (algebra_of table.now) one r) }
{
    match identity_or_refutation(alloc, table.fractions(), table.algebra())? {
        One::Here { tuple } => settle_with(alloc, table, &tuple),
        One::Refuted { .. } => unreachable!(),
    }
}
