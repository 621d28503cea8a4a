// The texts of evidence over the fractions.
ghost use Rattle.std.specs.Prelude.{◌≡◌, ◌≤◌, ◌*◌, ℕ, length, IfOk, All};
ghost use Rattle.theory_spaces.specs.Tuples.{IsTuple};
ghost use Rattle.spl_fraction.specs.Fractions.{field_of};
ghost use Rattle.spl_fraction.specs.FractionsOver.{fractions_over};
ghost use Rattle.theory_rings.specs.Ops.{Ops};
ghost use Rattle.theory_fractions.specs.Fraction.{Pair};
ghost use Rattle.spl_evidence.specs.Evidence.{Fits};
ghost use Rattle.theory_tables.specs.Claims.{AreMultipliers};

use spl_evidence::evidence::Evidence;
use spl_evidence::writing::write_evidence;
use spl_field::field::Field;
use spl_field::list::List;
use spl_fraction::field::Fractions;
use spl_fraction::tuples::Tuples;
use spl_matrix::lists::Multipliers;
use spl_words::fault::Fault;
use spl_words::{args, lists, show};
use std::alloc::Global;

/// The tuples, joined by semicolons, of so many fractions each.
fn tuples(alloc: Global, k: &Fractions, m: usize, word: &str) -> Result<Tuples, Fault>
    ensures { IfOk result (All (IsTuple (fractions_over (field_of k.now)) m)) }
{
    let mut tuples = Tuples::new(alloc);
    for part in word.split(';') {
        tuples.push(lists::tuple(alloc, k, m, part)?)?;
    }
    Ok(tuples)
}

/// The multiplier 1 at a pair of places from 1 to m.
fn multiplier(
    alloc: Global,
    k: &Fractions,
    m: usize,
    pair: [&str; 2],
) -> Result<Multipliers<Fractions>, Fault>
    ensures { IfOk result (AreMultipliers (fractions_over (field_of k.now)) m) }
{
    let first = args::positive(pair[0], m)?;
    let second = args::positive(pair[1], m)?;
    let mut list = List::new(alloc);
    list.push((first, second, k.one(alloc)?))?;
    Ok(list)
}

/// `triple N I J K`
fn triple(n: usize, i: &str, j: &str, k: &str) -> Result<Evidence, Fault>
    requires high { n ≤ 5 }
    ensures { (o : Ops (Pair ℕ)) → IfOk result (Fits o n) }
{
    Ok(Evidence::Triple {
        i: args::positive(i, n * n)?,
        j: args::positive(j, n * n)?,
        k: args::positive(k, n * n)?,
    })
}

/// `noidentity N J K J K`: the multiplier 1 at one pair of the left equations and one of the right.
fn noidentity(
    alloc: Global,
    k: &Fractions,
    n: usize,
    left: [&str; 2],
    right: [&str; 2],
) -> Result<Evidence, Fault>
    requires high { n ≤ 5 }
    ensures { IfOk result (Fits (fractions_over (field_of k.now)) n) }
{
    let left = multiplier(alloc, k, n * n, left)?;
    let right = multiplier(alloc, k, n * n, right)?;
    Ok(Evidence::NoIdentity { left, right })
}

/// `central N V`
fn central(alloc: Global, k: &Fractions, n: usize, tuple: &str) -> Result<Evidence, Fault>
    requires high { n ≤ 5 }
    ensures { IfOk result (Fits (fractions_over (field_of k.now)) n) }
{
    let tuple = lists::tuple(alloc, k, n * n, tuple)?;
    Ok(Evidence::Central { tuple })
}

/// `ideal N M`
fn ideal(alloc: Global, k: &Fractions, n: usize, rows: &str) -> Result<Evidence, Fault>
    requires high { n ≤ 5 }
    ensures { IfOk result (Fits (fractions_over (field_of k.now)) n) }
{
    let tuples = tuples(alloc, k, n * n, rows)?;
    if tuples.len() == 0 || tuples.len() >= n * n {
        return Err(Fault::BadLine);
    }
    Ok(Evidence::Ideal { tuples })
}

/// The evidence of a kind on an algebra of degree n.
fn evidence(
    alloc: Global,
    k: &Fractions,
    n: usize,
    kind: &str,
    words: &[&str],
) -> Result<Evidence, Fault>
    requires high { n ≤ 5 }
    ensures { IfOk result (Fits (fractions_over (field_of k.now)) n) }
{
    match (kind, words) {
        ("triple", [i, j, l]) => triple(n, i, j, l),
        ("noidentity", [a, b, c, d]) => noidentity(alloc, k, n, [*a, *b], [*c, *d]),
        ("central", [tuple]) => central(alloc, k, n, tuple),
        ("ideal", [rows]) => ideal(alloc, k, n, rows),
        _ => Err(Fault::BadLine),
    }
}

/// The text of evidence for an algebra of degree N.
pub(crate) fn call(
    alloc: Global,
    k: &Fractions,
    kind: &str,
    words: &[&str],
    out: &mut Vec<u8>,
) -> Result<(), Fault> {
    let [n, rest @ ..] = words else {
        return Err(Fault::BadLine);
    };
    let n = args::positive(n, 5)?;
    if n < 2 {
        return Err(Fault::BadLine);
    }
    let e = evidence(alloc, k, n, kind, rest)?;
    show::text(out, write_evidence(alloc, k, n, &e)?.as_slice())
}
