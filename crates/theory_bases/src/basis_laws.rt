// Rows of polynomials over a denominator as tuples of fractions.
ghost use Rattle.theory_bases.specs.BasisLaws.{KernelsTellIndependence};

use theory_fractions::fraction_laws::ProgramField;

/// Rows of polynomials over a denominator other than 0 are independent tuples exactly where the rows have no kernel.
pub fn kernels_tell_independence<F: ProgramField>()
    ensures { KernelsTellIndependence F.ops F.laws }
{}
