// The line that the program prints.
ghost use Rattle.std.specs.Prelude.{◌≡◌};
ghost use Rattle.decimal_lines.specs.Line.{line_text};
ghost use Rattle.gerg_coefficients.specs.Answer.{answer_of};
ghost use Rattle.tablecheck.specs.Line.{line_of};

use decimal_lines::Line;

// The line of a coefficient file. A length has no `From` into 64 bits.
pub fn line(file: &[u8]) -> Line
    ensures { line_text result ≡ line_of (answer_of file.now) }
{
    match gerg_coefficients::read_tables(file).answer {
        Ok(length) => Line {
            number: 0,
            value: length as u64,
        },
        Err(refusal) => Line::from(refusal),
    }
}
