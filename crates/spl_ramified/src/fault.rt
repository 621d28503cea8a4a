// Faults of the evidence of a ramified place.

/// The condition on the tuples of an order Λ and of its radical J, at a place with the uniformizer π, that fails.
#[derive(Clone, Copy, Debug, PartialEq, Eq)]
pub enum RamifiedFault {
    /// The place is neither infinity nor a monic irreducible polynomial.
    NoPlace,
    /// The algebra is not associative.
    NotAssociative,
    /// The algebra has no identity.
    NoIdentity,
    /// The tuples of the order are dependent.
    OrderDependent,
    /// Λ does not hold the identity.
    OrderWithoutIdentity,
    /// Λ is not closed under products.
    OrderNotClosed,
    /// The tuples of the radical are dependent.
    RadicalDependent,
    /// J is not inside Λ.
    RadicalOutside,
    /// Λ·J or J·Λ is not inside J.
    NoIdeal,
    /// π·Λ is not inside J.
    RadicalWithoutMultiple,
    /// No power of J is inside π·Λ.
    NotNilpotent,
    /// J is Λ, or a two-sided ideal of Λ lies strictly between J and Λ.
    QuotientNotSimple,
    /// The left order of J is not Λ.
    OtherLeftOrder,
    /// J is π·Λ.
    RadicalIsMultiple,
}
