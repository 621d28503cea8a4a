// What holds of the canonical text of a table whoever writes it.
ghost use Rattle.std.specs.Prelude.{[]};
ghost use Rattle.spl_table.specs.TableText.{TableText, IsWellFormed};
ghost use Rattle.spl_table.specs.Refusal.{whole, IsTableText, IsOnlyTableText};
ghost use Rattle.spl_table.specs.Table.{IsTableOf, HasSameAlgebra};
ghost use Rattle.spl_table.specs.CanonicalTable.{canonical_of, canonical_table_text, IsWritable};
ghost use Rattle.spl_table.specs.declared.table.Table.{Table};

/// The canonical text of a writable table is a table text, of no other table, and has no refusal.
pub fn canonical_texts_are_table_texts()
    ensures { (table : Table) → IsWritable table
        → IsOnlyTableText whole (canonical_table_text table) (canonical_of table) [] }
{}

/// What the canonical text of a table says is the table.
pub fn canonical_texts_say_their_tables()
    ensures { (table : Table) → IsTableOf (canonical_of table) table }
{}

/// The table of a text is writable: numerators and denominators in lowest terms are of no greater degree than those of
/// the text.
pub fn tables_of_texts_are_writable()
    ensures { (text : TableText) (table : Table) → IsWellFormed text → IsTableOf text table → IsWritable table }
{}

/// What is read of the canonical text of a writable table is a table with the same field, degree and constants. So a
/// text with zeros, or with fractions that are not in lowest terms, reads as the same table as the canonical one.
pub fn canonical_texts_read_as_their_tables()
    ensures { (table read : Table) (text : TableText) → IsWritable table
        → IsTableText whole (canonical_table_text table) text [] → IsTableOf text read → HasSameAlgebra table read }
{}
