// The fields whose elements can be given and shown: one wording of the calls on lists, matrices and algebras serves
// all.
ghost use Rattle.std.specs.Prelude.{IfOk};
ghost use Rattle.theory_rings.specs.Ops.{IsElem};

use crate::args;
use crate::fault::Fault;
use spl_field::field::{Field, NoMemory};
use spl_field::small::SmallField;
use spl_fraction::field::Fractions;
use spl_fraction::fraction::Fraction;
use spl_residue::elem::ResidueElem;
use spl_residue::field::ResidueField;
use spl_text::writing::{push_coefficients, push_number};
use std::alloc::Global;

/// A field whose elements are words.
pub trait Scalars: Field {
    /// The element that the word is.
    fn read(&self, alloc: Global, word: &str) -> Result<Self::Elem, Fault>
        ensures { IfOk result (IsElem (Self.ops self.now)) };

    /// Appends the element's word.
    fn write(&self, alloc: Global, a: &Self::Elem, out: &mut Vec<u8>) -> Result<(), NoMemory>
        requires { IsElem (Self.ops self.now) a.now };
}

impl Scalars for SmallField {
    fn read(&self, _alloc: Global, word: &str) -> Result<u8, Fault> {
        args::element(self, word)
    }

    fn write(&self, _alloc: Global, a: &u8, out: &mut Vec<u8>) -> Result<(), NoMemory> {
        push_number(out, u32::from(*a))
    }
}

impl Scalars for Fractions {
    fn read(&self, alloc: Global, word: &str) -> Result<Fraction, Fault> {
        args::fraction(alloc, self, word)
    }

    fn write(&self, alloc: Global, a: &Fraction, out: &mut Vec<u8>) -> Result<(), NoMemory> {
        self.write_fraction(alloc, a, out)
    }
}

impl Scalars for ResidueField {
    fn read(&self, alloc: Global, word: &str) -> Result<ResidueElem, Fault> {
        args::remainder(alloc, self, word)
    }

    fn write(&self, alloc: Global, a: &ResidueElem, out: &mut Vec<u8>) -> Result<(), NoMemory> {
        let p = self.lift(alloc, a)?;
        push_coefficients(out, p.as_slice())
    }
}
