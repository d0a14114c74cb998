// The catalogue of a real scene, in both byte orders: the counts, sums of the tables, and what is refused.
ghost use Rattle.std.specs.Prelude.{◌*◌, ◌^◌, ◌<◌};

use crate::sum;
use dna::dna::{DnaCounts, DnaError, dna, dna_counts};
use octets::{Endianness, Refusal};

fn answer(rt: &impl Print, r: Result<DnaCounts, DnaError>) {
    let _ = match r {
        Ok(n) => print!(rt;
            " names {} types {} structs {} fields {}",
            n.names, n.types, n.structs, n.fields
        ),
        Err(DnaError::Fault(f)) => print!(rt; " refused {f}"),
        Err(DnaError::TableTooShort(which, rows)) => print!(rt;
            " refused {} {} {rows}",
            Refusal::CATALOGUE_TABLE_TOO_SHORT,
            which.number()
        ),
    };
}

// What the call answers, and what the tables hold afterwards, with so many numbers in the tables of structs and of fields. Those of names and types have just the
// rows they need.
fn with_tables<const STRUCTS: usize, const FIELDS: usize>(
    rt: &impl Print,
    payload: &[u8],
    order: Endianness,
)
    requires { (STRUCTS * 8 < 2 ^ 63) × (FIELDS * 8 < 2 ^ 63) }
{
    let mut names = [7u64; 9952];
    let mut types = [7u64; 2793];
    let mut structs = [7u64; STRUCTS];
    let mut fields = [7u64; FIELDS];
    answer(
        rt,
        dna(
            payload,
            order,
            &mut names,
            &mut types,
            &mut structs,
            &mut fields,
        ),
    );
    let _ = println!(rt;
        " sums {} {} {} {}",
        sum(&names),
        sum(&types),
        sum(&structs),
        sum(&fields)
    );
}

fn counts(rt: &impl Print, payload: &[u8], order: Endianness) {
    let _ = match dna_counts(payload, order) {
        Ok((n, end)) => println!(rt; " names {} end {end}", n.names),
        Err(f) => println!(rt; " refused {f}"),
    };
}

// A file that holds a catalogue: its length, and all that is asked of it.
pub fn report(rt: &impl Print, path: &str, payload: &[u8], order: Endianness) {
    let _ = println!(rt; "{path} bytes {}", payload.len());
    // With just the rows they need, and with one row too few in the table of structs and in that of fields.
    with_tables::<2418, 17420>(rt, payload, order);
    with_tables::<2417, 17419>(rt, payload, order);
    counts(rt, payload, order);
}
