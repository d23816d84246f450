// The coefficient file and its tables.
#![tactic(auto)]

ghost use Rattle.std.specs.Prelude.{◌≡◌, replicate};
ghost use Rattle.numerics.specs.Double.{+0};
ghost use Rattle.gerg_coefficients.specs.Answer as Answers;
ghost use Rattle.gerg_coefficients.specs.TableFile.{table_file_of, table_file};

mod load;
mod store;

use gerg_file::read_layout;
use gerg_refusals::Refusal;
use gerg_refusals::code::code;
use gerg_tables::{Tables, check};

// A file's answer, its length or why it is refused, and its tables, which are zeros where row 1 refuses it. The tables stand beside the answer and not in it: a file that row 2
// refuses has tables too.
#[derive(Clone, Copy)]
pub struct TableFile {
    pub answer: Result<usize, Refusal>,
    pub tables: Tables,
}

// The bytes of a coefficient file, checked and read into lent arrays of zeros, so that tables of 34 kB are not copied.
pub fn read_tables_into(
    file: &[u8],
    doubles: &mut [f64; 4086],
    integers: &mut [u8; 1631],
) -> Result<usize, Refusal>
    requires { (doubles.old ≡ replicate 4086 +0) × (integers.old ≡ replicate 1631 0) }
    ensures { table_file result doubles.new integers.new ≡ table_file_of file.now }
{
    let layout = read_layout(file)?;
    let finite = load::put_tables(file, layout, doubles, integers);
    check::fault(doubles, integers, layout.count, finite)?;
    Ok(layout.length)
}

// The same with the tables in the answer.
pub fn read_tables(file: &[u8]) -> TableFile
    ensures { result ≡ table_file_of file.now }
{
    let mut doubles = [0.0; 4086];
    let mut integers = [0u8; 1631];
    let answer = read_tables_into(file, &mut doubles, &mut integers);
    let tables = Tables { doubles, integers };
    TableFile { answer, tables }
}

// The answer's number and value as one number, for callers in C (`gerg_coefficients_c` exports it). A file's length is what an accepted answer reports.
// By `read_tables` the arrays would be copied into its answer.
pub fn gerg_tables_check(file: &[u8]) -> u64
    ensures { result ≡ Answers.code_of (Answers.answer_of file.now) }
{
    let mut doubles = [0.0; 4086];
    let mut integers = [0u8; 1631];
    let answer = read_tables_into(file, &mut doubles, &mut integers);
    code(answer)
}
