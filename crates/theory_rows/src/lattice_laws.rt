// Laws of rows of polynomials over a program's field.
ghost use Rattle.theory_rows.specs.FractionKernels.{KernelIsBasisOverFractions};
ghost use Rattle.theory_rows.specs.RowLaws.{PredictableDegrees, ReducedRowsAreIndependent};
ghost use Rattle.theory_rows.specs.InvertibleMatrices.{InvertibleTransformsKeepLattices};

use theory_fractions::fraction_laws::ProgramField;

/// The degree of a combination of reduced rows is the greatest degree of a weight times its row; so reduced rows are
/// independent.
pub fn degrees_are_predictable<F: ProgramField>()
    ensures degrees { PredictableDegrees F.ops }
    ensures independent { ReducedRowsAreIndependent F.ops }
{}

/// A basis of the weights, polynomials, with which rows combine to 0 is a basis, over the fractions, of the weights
/// that are fractions with which they do.
pub fn kernels_are_kernels_over_the_fractions<F: ProgramField>()
    ensures basis { KernelIsBasisOverFractions F.ops F.laws }
{}

/// Rows have the same lattice as those that an invertible transform makes of them; and these are independent where the
/// rows are.
pub fn invertible_transforms_keep_lattices<F: ProgramField>()
    ensures image { InvertibleTransformsKeepLattices F.ops }
{}
