// The lift ring of a residue field, and traces of powers of lifted multiplications.
ghost use Rattle.std.specs.Prelude.{◌≡◌, ◌↔◌, ◌^◌, ◌<◌, ◌≤◌, suc, IfOk, IsTrue};
ghost use Rattle.spl_radical.specs.LiftNumbers.{residues_of, level_of};

use spl_radical::lift_ring::LiftRing;
use spl_radical::trace_power;
use spl_residue::field::ResidueField;
use spl_words::fault::Fault;
use spl_words::{args, lists, show};
use std::alloc::Global;

/// The greatest modulus of a lift ring.
const MOST: u64 = 1099511627776;

/// Whether p^(l + 1) is at most 2^40.
fn fits(p: u64, l: u32) -> bool
    requires least { 2 ≤ p }
    requires most { p < 2 ^ 16 }
    ensures { IsTrue result ↔ (p ^ suc l ≤ 2 ^ 40) }
{
    let mut power = p;
    for i in 0..l {
        power = power * p;
        if power > MOST {
            return false;
        }
    }
    true
}

/// The lift ring with the integers modulo p^(l + 1), which is at most 2^40.
fn ring<'k>(alloc: Global, k: &'k ResidueField, l: u32) -> Result<LiftRing<'k>, Fault>
    ensures field { IfOk result (λ r. residues_of r ≡ k.now) }
    ensures level { IfOk result (λ r. level_of r ≡ l) }
{
    if !fits(u64::from(k.field().p()), l) {
        return Err(Fault::BadLine);
    }
    Ok(LiftRing::new(alloc, k, l)?)
}

/// The numbers, one a word.
fn numbers(alloc: Global, out: &mut Vec<u8>, numbers: &[u64]) -> Result<(), Fault> {
    for n in numbers {
        show::word(out, format!(in alloc; "{n}")?.as_str())?;
    }
    Ok(())
}

/// `lift L a`: the numbers of the lift to the ring modulo p^(L + 1).
fn lift(
    alloc: Global,
    ring: &LiftRing,
    k: &ResidueField,
    a: &str,
    out: &mut Vec<u8>,
) -> Result<(), Fault>
    requires { residues_of ring.now ≡ k.now }
{
    let a = args::remainder(alloc, k, a)?;
    numbers(alloc, out, ring.lift(alloc, &a)?.numbers())
}

/// `add L a b` and `mul L a b`: the numbers of the sum and of the product of the lifts.
fn on_two(
    alloc: Global,
    ring: &LiftRing,
    k: &ResidueField,
    call: &str,
    a: &str,
    b: &str,
    out: &mut Vec<u8>,
) -> Result<(), Fault>
    requires { residues_of ring.now ≡ k.now }
{
    let a = ring.lift(alloc, &args::remainder(alloc, k, a)?)?;
    let b = ring.lift(alloc, &args::remainder(alloc, k, b)?)?;
    match call {
        "add" => numbers(alloc, out, ring.add(alloc, &a, &b)?.numbers()),
        "mul" => numbers(alloc, out, ring.mul(alloc, &a, &b)?.numbers()),
        _ => Err(Fault::BadLine),
    }
}

/// The answer of a call of the lift ring modulo p^(L + 1), where L is the first word.
pub(crate) fn call(
    alloc: Global,
    k: &ResidueField,
    call: &str,
    words: &[&str],
    out: &mut Vec<u8>,
) -> Result<(), Fault> {
    let [level, rest @ ..] = words else {
        return Err(Fault::BadLine);
    };
    let ring = ring(alloc, k, args::number(level)?)?;
    match (call, rest) {
        ("lift", [a]) => lift(alloc, &ring, k, a, out),
        (_, [a, b]) => on_two(alloc, &ring, k, call, a, b, out),
        _ => Err(Fault::BadLine),
    }
}

/// `trace_power L A a I`: the numbers of the trace of the p^I-th power of the lift of the multiplication by a, in the
/// ring modulo p^(L + 1).
pub(crate) fn trace_power(
    alloc: Global,
    k: &ResidueField,
    level: &str,
    algebra: &str,
    a: &str,
    i: &str,
    out: &mut Vec<u8>,
) -> Result<(), Fault> {
    let level = args::number(level)?;
    let i = args::number(i)?;
    if i > level {
        return Err(Fault::BadLine);
    }
    let ring = ring(alloc, k, level)?;
    let b = lists::algebra(alloc, k, algebra)?;
    let a = lists::tuple(alloc, k, b.dim(), a)?;
    let trace = trace_power::trace_power(alloc, &ring, &b, &a, i)?;
    numbers(alloc, out, trace.numbers())
}
