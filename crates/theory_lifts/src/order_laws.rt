// The radical of an order at a place whose residue field is F_q[x]/(π), over the numbers by their digits.
ghost use Rattle.std.specs.Prelude.{◌≡◌, ℕ, ◌^◌, ◌≤◌, List, length};
ghost use Rattle.theory_rings.specs.Ring.{CommRingOn, FieldOn};
ghost use Rattle.theory_rings.specs.Enumerated.{Enumerated};
ghost use Rattle.theory_rings.specs.Ops.{Ops, FieldLaws};
ghost use Rattle.theory_rings.specs.Elements.{Elem, elements};
ghost use Rattle.theory_rings.specs.FieldByDigits.{IsFieldByDigits};
ghost use Rattle.theory_rings.specs.Polynomial.{Poly, degree, IsMonic, IsPolynomialRing};
ghost use Rattle.theory_rings.specs.Remainder.{Remainder, IsRemainderRing};
ghost use Rattle.theory_spaces.specs.Module.{AlgebraOn, module_of};
ghost use Rattle.theory_spaces.specs.Linear.{Basis};
ghost use Rattle.theory_spaces.specs.Valuation.{ValuationOn};
ghost use Rattle.theory_orders.specs.Uniformizer.{UniformizerOn};
ghost use Rattle.theory_residue.specs.Residue.{ResidueOn};
ghost use Rattle.theory_lifts.specs.OrderRadical.{OrdersHaveRadicals, OrdersHaveMaximalIdeals};

/// An algebra with a basis over a field with a valuation ring and a uniformizer p, which has the inverse q, and whose
/// residue field is that of the remainders by a polynomial over the numbers by their digits. The types `Quotient` are
/// those of the elements of the order modulo its radical, by its dimension.
pub trait PlaceAlgebra {
    ghost characteristic: { ℕ };

    ghost two_le: { 2 ≤ characteristic };

    ghost modulus: { List ℕ };

    ghost positive: { 1 ≤ length modulus };

    ghost operations: { Ops ℕ };

    ghost by_digits: { IsFieldByDigits characteristic modulus operations };

    ghost laws: { FieldLaws operations };

    ghost divisor: { Poly (elements operations laws).cring };

    ghost monic: { IsMonic (elements operations laws).cring divisor };

    ghost polynomials: { CommRingOn (Poly (elements operations laws).cring) };

    ghost polynomials_is: { IsPolynomialRing (elements operations laws).cring polynomials };

    ghost residue_field: { FieldOn (Remainder (elements operations laws).cring divisor) };

    ghost residue_field_is: { IsRemainderRing
        (elements operations laws).cring divisor polynomials residue_field.cring };

    ghost Scalar: { Type 0 };

    ghost Vector: { Type 0 };

    ghost Quotient: { ℕ → Type 0 };

    ghost field: { FieldOn Scalar };

    ghost valuation: { ValuationOn field };

    ghost p: { Scalar };

    ghost q: { Scalar };

    ghost uniformizer: { UniformizerOn field valuation p q };

    ghost residue: { ResidueOn field valuation q residue_field };

    ghost algebra: { AlgebraOn field.ring Vector };

    ghost dimension: { ℕ };

    ghost basis: { Basis (module_of algebra) dimension };
}

/// Each order has a radical, which is the lattice of finitely many vectors; and its maximal ideals over p·Λ are
/// finitely many lattices.
pub fn orders_have_radicals<A: PlaceAlgebra>()
    ensures radical { OrdersHaveRadicals A.field A.valuation A.p A.algebra A.dimension }
    ensures maximal { (N : Enumerated (Remainder (elements A.operations A.laws).cring A.divisor))
        × (N.size ≡ (A.characteristic ^ length A.modulus) ^ degree A.divisor.0)
        × OrdersHaveMaximalIdeals A.field A.valuation A.p A.residue_field A.residue A.algebra A.dimension N A.Quotient }
{}
