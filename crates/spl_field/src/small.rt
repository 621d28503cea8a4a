// The fields of 2 to 256 elements.
ghost use Rattle.std.specs.Prelude.{◌≡◌, ◌≢◌, ℕ, ◌*◌, ◌+◌, ◌^◌, ◌<◌, ◌≤◌, length, All, MatchOption, IfOk, OnOk};
ghost use Rattle.std.specs.Prelude.{IsErrOf, refl};
ghost use Rattle.std.specs.Prelude.{slice_index};
ghost use Rattle.theory_rings.specs.FieldByDigits.{IsSumByDigits, IsProductByDigits};
ghost use Rattle.spl_field.specs.FieldByDigits.{FitsField, IsAdmitted, IsFirstWithoutInverse, IsInverse};
ghost use Rattle.spl_field.specs.Tables.{table_ops, table_power, AreElements, AreSums, AreNegatives, AreProducts};
ghost use Rattle.spl_field.specs.Tables.{AreInverses};
ghost use Rattle.spl_field.specs.TableField.{field_laws};

use crate::admission::{FieldFault, admits_numbers};
use crate::field::{Field, NoMemory};
use crate::list::Codes;
use crate::tables::{inverse_table, negative_table, product_table, root_table, sum_table};
use std::alloc::Global;

/// The sums and the products of all elements, each row by row: those of a and b at place a·size + b.
#[derive(Drop)]
pub struct Tables {
    pub size: u16,
    pub sum: Codes,
    pub product: Codes,
}

/// A field of q = p^d elements, 2 to 256 of them, which are the numbers below q: each is read as d digits to the base
/// p, lowest first, the coefficients of a polynomial in t; sums go digit by digit, and products are remainders by the
/// modulus (Lidl and Niederreiter, Finite Fields).
///
/// All answers are read from tables that are built once, so no operation takes memory.
pub struct SmallField {
    p: u16,
    size: u16,
    modulus: Vec<u8>,
    sums: Vec<u8>,
    negatives: Vec<u8>,
    products: Vec<u8>,
    inverses: Vec<u8>,
    roots: Vec<u8>,
    ghost least: { 2 ≤ p },
    ghost some_number: { 1 ≤ length modulus.items },
    ghost numbers_below: { All (λ m. m < p) modulus.items },
    ghost two_elements: { 2 ≤ size },
    ghost power: { size ≡ p ^ length modulus.items },
    ghost most: { size ≤ 256 },
    ghost sums_full: { length sums.items ≡ size * size },
    ghost sums_are: { AreSums p modulus.items size sums.items },
    ghost negatives_full: { length negatives.items ≡ size },
    ghost negatives_below: { AreElements size size negatives.items },
    ghost negatives_are: { AreNegatives p modulus.items size negatives.items },
    ghost products_full: { length products.items ≡ size * size },
    ghost products_are: { AreProducts p modulus.items size products.items },
    ghost inverses_full: { length inverses.items ≡ size },
    ghost inverses_below: { AreElements size size inverses.items },
    ghost inverses_are: { AreInverses p modulus.items size inverses.items },
    ghost inverse_of_zero: { slice_index inverses.items 0 ≡ 0 },
    ghost roots_full: { length roots.items ≡ size },
    ghost roots_below: { AreElements size size roots.items },
    ghost roots_are: { (a : ℕ) → a < size → table_power size products.items (slice_index roots.items a) p ≡ a },
}

// (one proof for all functions that drop a field, in place of one in each)
impl Drop for SmallField {
    fn drop(self) {
        let SmallField {
            p,
            size,
            modulus,
            sums,
            negatives,
            products,
            inverses,
            roots,
        } = self;
    }
}

impl Field for SmallField {
    type Elem = u8;

    ghost ops = { λ f. table_ops f.size f.sums.items f.negatives.items f.products.items f.inverses.items };

    ghost laws = { λ f. field_laws f.p f.least f.modulus.items f.some_number f.size f.power
        f.sums.items f.negatives.items f.products.items f.inverses.items
        f.sums_are f.negatives_below f.negatives_are f.products_are f.inverses_below f.inverses_are };

    ghost same_zero = { λ _ _. refl };

    fn zero(&self, _alloc: Global) -> Result<u8, NoMemory> {
        Ok(0)
    }

    fn one(&self, _alloc: Global) -> Result<u8, NoMemory> {
        Ok(1)
    }

    fn add(&self, _alloc: Global, a: &u8, b: &u8) -> Result<u8, NoMemory> {
        Ok(self.sum(*a, *b))
    }

    fn neg(&self, _alloc: Global, a: &u8) -> Result<u8, NoMemory> {
        Ok(self.negative(*a))
    }

    fn mul(&self, _alloc: Global, a: &u8, b: &u8) -> Result<u8, NoMemory> {
        Ok(self.product(*a, *b))
    }

    fn inv(&self, _alloc: Global, a: &u8) -> Result<Option<u8>, NoMemory> {
        Ok(self.inverse(*a))
    }

    fn copy(&self, _alloc: Global, a: &u8) -> Result<u8, NoMemory> {
        Ok(*a)
    }

    fn eq(&self, a: &u8, b: &u8) -> bool {
        *a == *b
    }
}

impl SmallField {
    ghost use Rattle.theory_rings.specs.Power.{power_of};
    ghost use Rattle.spl_field.specs.Laws.{AreTables};
    ghost use Rattle.spl_field.specs.SmallField.{characteristic, size_of, modulus_of, small_ops};

    /// Whether p and the modulus give a field: p to the number of digits is 2 to 256, the numbers of the modulus are
    /// below p, and each nonzero element has an inverse. A fault of size comes before one of the inverses, which
    /// carries the first element without one. It takes no memory, and so never answers `Memory`.
    pub fn admits(p: u16, modulus: &[u8]) -> Result<(), FieldFault>
        ensures ok { OnOk result (IsAdmitted p modulus.now) }
        ensures size { IsErrOf result FieldFault.Size → FitsField p modulus.now → ⊥ }
        ensures no_inverse { (element : ℕ) → IsErrOf result (FieldFault.NoInverse element)
            → IsFirstWithoutInverse p modulus.now element }
        ensures no_memory_needed { result ≢ Err FieldFault.Memory }
    {
        let _size = admits_numbers(p, modulus)?;
        Ok(())
    }

    /// The field, with its tables. The faults `Size` and `NoInverse` come exactly where `admits` gives them, and
    /// `Memory` only where it gives none.
    pub fn new(alloc: Global, p: u16, modulus: &[u8]) -> Result<SmallField, FieldFault>
        ensures p { IfOk result (λ f. characteristic f ≡ p) }
        ensures modulus { IfOk result (λ f. modulus_of f ≡ modulus.now) }
        ensures admitted { OnOk result (IsAdmitted p modulus.now) }
        ensures size { IsErrOf result FieldFault.Size → FitsField p modulus.now → ⊥ }
        ensures no_inverse { (element : ℕ) → IsErrOf result (FieldFault.NoInverse element)
            → IsFirstWithoutInverse p modulus.now element }
        ensures memory { IsErrOf result FieldFault.Memory → IsAdmitted p modulus.now }
    {
        let size = admits_numbers(p, modulus)?;
        Ok(SmallField::from_admitted(alloc, p, modulus, size)?)
    }

    /// The field of numbers that are admitted, with its tables.
    fn from_admitted(
        alloc: Global,
        p: u16,
        modulus: &[u8],
        size: u16,
    ) -> Result<SmallField, NoMemory>
        requires admitted { IsAdmitted p modulus.now }
        requires size { size ≡ p ^ length modulus.now }
        ensures p { IfOk result (λ f. characteristic f ≡ p) }
        ensures modulus { IfOk result (λ f. modulus_of f ≡ modulus.now) }
    {
        let products = product_table(alloc, p, modulus, size)?;
        let roots = root_table(alloc, p, size, &products)?;
        Ok(SmallField {
            p,
            size,
            modulus: Vec::from_slice(alloc, modulus)?,
            sums: sum_table(alloc, p, modulus, size)?,
            negatives: negative_table(alloc, p, modulus, size)?,
            products,
            inverses: inverse_table(alloc, p, modulus, size)?,
            roots,
        })
    }

    /// The characteristic.
    pub fn p(&self) -> u16
        ensures p { result ≡ characteristic self.now }
        ensures least { 2 ≤ result }
    {
        self.p
    }

    /// The number of elements, which are the numbers below it: the characteristic to the number of digits.
    pub fn size(&self) -> u16
        ensures size { result ≡ size_of self.now }
        ensures power { result ≡ characteristic self.now ^ length (modulus_of self.now) }
        ensures least { 2 ≤ result }
        ensures most { result ≤ 256 }
    {
        self.size
    }

    /// The numbers of the modulus, lowest first, without the lead 1.
    pub fn modulus(&self) -> &[u8]
        ensures { result.now ≡ modulus_of self.now }
    {
        &self.modulus
    }

    /// The sum.
    pub fn sum(&self, a: u8, b: u8) -> u8
        requires left { a < size_of self.now }
        requires right { b < size_of self.now }
        ensures elem { result < size_of self.now }
        ensures value { IsSumByDigits (characteristic self.now) (modulus_of self.now) a b result }
        ensures same { result ≡ (small_ops self.now).add a b }
    {
        self.sums[usize::from(a) * usize::from(self.size) + usize::from(b)]
    }

    /// The negative, whose sum with a is 0.
    pub fn negative(&self, a: u8) -> u8
        requires { a < size_of self.now }
        ensures elem { result < size_of self.now }
        ensures value { IsSumByDigits (characteristic self.now) (modulus_of self.now) a result 0 }
        ensures same { result ≡ (small_ops self.now).neg a }
    {
        self.negatives[usize::from(a)]
    }

    /// The product.
    pub fn product(&self, a: u8, b: u8) -> u8
        requires left { a < size_of self.now }
        requires right { b < size_of self.now }
        ensures elem { result < size_of self.now }
        ensures value { IsProductByDigits (characteristic self.now) (modulus_of self.now) a b result }
        ensures same { result ≡ (small_ops self.now).mul a b }
    {
        self.products[usize::from(a) * usize::from(self.size) + usize::from(b)]
    }

    /// The inverse, whose product with a is 1; None exactly where a is 0.
    pub fn inverse(&self, a: u8) -> Option<u8>
        requires { a < size_of self.now }
        ensures value { MatchOption result (a ≡ 0)
            (λ b. (a ≢ 0) × IsInverse (characteristic self.now) (modulus_of self.now) a b) }
        ensures same { MatchOption result (a ≡ 0) (λ b. (a ≢ 0) × (b ≡ (small_ops self.now).inv a)) }
    {
        if a == 0 {
            None
        } else {
            Some(self.inverses[usize::from(a)])
        }
    }

    /// The element whose p-th power is a.
    pub fn frobenius_root(&self, a: u8) -> u8
        requires { a < size_of self.now }
        ensures elem { result < size_of self.now }
        ensures value { power_of (small_ops self.now) result (characteristic self.now) ≡ a }
    {
        self.roots[usize::from(a)]
    }

    /// The tables of the sums and the products. The one fault is want of memory.
    pub fn tables(&self, alloc: Global) -> Result<Tables, NoMemory>
        ensures size { IfOk result (λ t. t.size ≡ size_of self.now) }
        ensures tables { IfOk result (λ t. AreTables t.size t.sum t.product) }
        ensures sums { IfOk result (λ t. (a b : ℕ) → a < size_of self.now → b < size_of self.now
            → slice_index t.sum (a * size_of self.now + b) ≡ (small_ops self.now).add a b) }
        ensures products { IfOk result (λ t. (a b : ℕ) → a < size_of self.now → b < size_of self.now
            → slice_index t.product (a * size_of self.now + b) ≡ (small_ops self.now).mul a b) }
    {
        Ok(Tables {
            size: self.size,
            sum: Codes::from_slice(alloc, &self.sums)?,
            product: Codes::from_slice(alloc, &self.products)?,
        })
    }

    /// An equal field. The one fault is want of memory.
    pub fn duplicate(&self, alloc: Global) -> Result<SmallField, NoMemory>
        ensures p { IfOk result (λ f. characteristic f ≡ characteristic self.now) }
        ensures modulus { IfOk result (λ f. modulus_of f ≡ modulus_of self.now) }
        ensures ops { IfOk result (λ f. small_ops f ≡ small_ops self.now) }
    {
        Ok(SmallField {
            p: self.p,
            size: self.size,
            modulus: Vec::from_slice(alloc, &self.modulus)?,
            sums: Vec::from_slice(alloc, &self.sums)?,
            negatives: Vec::from_slice(alloc, &self.negatives)?,
            products: Vec::from_slice(alloc, &self.products)?,
            inverses: Vec::from_slice(alloc, &self.inverses)?,
            roots: Vec::from_slice(alloc, &self.roots)?,
        })
    }
}
