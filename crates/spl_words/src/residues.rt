// Calls of residue fields.
ghost use Rattle.std.specs.Prelude.{All};
ghost use Rattle.spl_field.specs.SmallField.{small_ops};
ghost use Rattle.spl_poly.specs.Operations.{IsOver};
ghost use Rattle.spl_residue.specs.Residue.{field_of};

use crate::fault::Fault;
use crate::{args, show};
use spl_field::small::SmallField;
use spl_poly::poly::Poly;
use spl_residue::field::ResidueField;
use spl_residue::irreducible::is_irreducible;
use std::alloc::Global;

/// `new A`: the modulus, or `none`.
fn new(alloc: Global, f: &SmallField, a: &Poly, out: &mut Vec<u8>) -> Result<(), Fault>
    requires { IsOver (small_ops f.now) a.now }
{
    match ResidueField::new(alloc, f, a)? {
        None => show::word(out, "none"),
        Some(k) => show::polynomial(out, k.modulus()),
    }
}

/// The polynomial of the remainder of a, or of its root.
fn in_field(
    alloc: Global,
    k: &ResidueField,
    call: &str,
    a: &Poly,
    out: &mut Vec<u8>,
) -> Result<(), Fault>
    requires { IsOver (small_ops (field_of k.now)) a.now }
{
    let a = k.reduce_poly(alloc, a)?;
    match call {
        "reduce_poly" => show::poly_of(out, k.lift(alloc, &a)),
        "frobenius_root" => show::poly_of(out, k.lift(alloc, &k.frobenius_root(alloc, &a)?)),
        _ => Err(Fault::BadLine),
    }
}

/// `reduce_poly MODULUS A` and `frobenius_root MODULUS A`, each by the polynomial of the answer; `none` where the
/// modulus isn't irreducible.
fn on_remainder(
    alloc: Global,
    f: &SmallField,
    call: &str,
    modulus: &Poly,
    a: &Poly,
    out: &mut Vec<u8>,
) -> Result<(), Fault>
    requires modulus { IsOver (small_ops f.now) modulus.now }
    requires over { IsOver (small_ops f.now) a.now }
{
    let Some(k) = ResidueField::new(alloc, f, modulus)? else {
        return show::word(out, "none");
    };
    in_field(alloc, &k, call, a, out)
}

/// The answer of a call on these polynomials.
fn on_polys(
    alloc: Global,
    f: &SmallField,
    call: &str,
    given: &[Poly],
    out: &mut Vec<u8>,
) -> Result<(), Fault>
    requires { All (IsOver (small_ops f.now)) given.now }
{
    match (call, given) {
        ("is_irreducible", [a]) => show::truth(out, is_irreducible(alloc, f, a)?),
        ("new", [a]) => new(alloc, f, a, out),
        (_, [modulus, a]) => on_remainder(alloc, f, call, modulus, a, out),
        _ => Err(Fault::BadLine),
    }
}

/// The answer of a call on polynomials.
pub fn call(
    alloc: Global,
    f: &SmallField,
    call: &str,
    words: &[&str],
    out: &mut Vec<u8>,
) -> Result<(), Fault> {
    let given = args::polys(alloc, f, words)?;
    on_polys(alloc, f, call, given.as_slice(), out)
}
