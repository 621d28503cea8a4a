// The laws of a field, for given tables of its sums and products.
ghost use Rattle.std.specs.Prelude.{◌≡◌, ◌*◌, ◌≤◌, length, IfOk};
ghost use Rattle.spl_field.specs.Tables.{AreElements};

use crate::fault::Fault;
use crate::{args, show};
use spl_field::laws::check_laws;
use spl_field::list::Codes;
use spl_field::small::Tables;
use std::alloc::Global;

/// As many numbers below the size as its square, joined by commas.
fn table(alloc: Global, size: u16, word: &str) -> Result<Codes, Fault>
    requires { size ≤ 256 }
    ensures full { IfOk result (λ c. length c ≡ size * size) }
    ensures elements { IfOk result (AreElements size (size * size)) }
{
    let items = args::bytes(alloc, u32::from(size), word)?;
    if items.len() != usize::from(size) * usize::from(size) {
        return Err(Fault::BadLine);
    }
    Ok(Codes::from_slice(alloc, items.as_slice())?)
}

/// `check_laws SIZE SUM PRODUCT`: `yes`, or the number of the first law that fails and the elements.
pub fn call(alloc: Global, words: &[&str], out: &mut Vec<u8>) -> Result<(), Fault> {
    let [size, sum, product] = words else {
        return Err(Fault::BadLine);
    };
    let size = args::positive(size, 256)? as u16;
    if size < 2 {
        return Err(Fault::BadLine);
    }
    let sum = table(alloc, size, sum)?;
    let product = table(alloc, size, product)?;
    match check_laws(&Tables { size, sum, product }) {
        Ok(()) => show::word(out, "yes"),
        Err(at) => {
            show::word(out, "law")?;
            show::codes(out, &[at.law, at.a, at.b, at.c])
        }
    }
}
