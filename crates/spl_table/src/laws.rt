// What holds of table texts whoever reads them.
ghost use Rattle.std.specs.Prelude.{◌≡◌, ℕ, List};
ghost use Rattle.spl_table.specs.TableText.{TableText, IsWellFormed};
ghost use Rattle.spl_table.specs.Table.{IsTableOf, HasSameAlgebra};
ghost use Rattle.spl_table.specs.declared.table.Table.{Table};
ghost use Rattle.spl_table.specs.Refusal.{Extent, IsTableText, IsRefusal, EachIsTextOrRefused};
ghost use Rattle.spl_table.specs.declared.refusal.Refusal.{Refusal};

/// A text is the text of at most one table, and the table text ends at one place.
pub fn one_table_a_text()
    ensures { (extent : Extent) (bytes : List ℕ) (t u : TableText) (r s : List ℕ)
        → IsTableText extent bytes t r → IsTableText extent bytes u s → (t ≡ u) × (r ≡ s) }
{}

/// No text has both a table and a refusal.
pub fn no_text_has_both()
    ensures { (extent : Extent) (bytes : List ℕ) (t : TableText) (r : List ℕ) (refusal : Refusal)
        → IsTableText extent bytes t r → IsRefusal extent bytes refusal → ⊥ }
{}

/// A text has at most one refusal.
pub fn one_refusal_a_text()
    ensures { (extent : Extent) (bytes : List ℕ) (f g : Refusal) → IsRefusal extent bytes f → IsRefusal extent bytes g
        → f ≡ g }
{}

/// Each byte string is the text of exactly one table, or has exactly one refusal.
pub fn each_text_has_a_table_or_a_refusal()
    ensures { (extent : Extent) → EachIsTextOrRefused extent }
{}

/// Two tables of one text have the same field, with the same operations, the same degree and the same constants.
pub fn tables_of_one_text_agree()
    ensures { (text : TableText) → IsWellFormed text → (t u : Table) → IsTableOf text t → IsTableOf text u
        → HasSameAlgebra t u }
{}
