// The calls of request 03 for C, in the extended range: as those of export.rt. C needs both names, and three lines of a body are all that two such exports have in common.
ghost use Rattle.std.specs.Prelude.{◌≡◌};
ghost use Rattle.gerg.specs.Helmholtz.{extended_range};
ghost use Rattle.gerg_answers.specs.Answers as answers;
ghost use Rattle.gerg_calls.specs.Calls as is;

use crate::options;
use gerg::helmholtz;
use gerg_calls::{density, fugacity, properties};

#[unsafe(no_mangle)]
pub extern "C" fn gerg_properties_extended(
    file: &[u8],
    list: &[u8],
    fractions: &[f64],
    t: f64,
    rho: f64,
    out: &mut [f64; 24],
) -> u64
    ensures answer { result ≡ answers.accepted_code (is.properties_in file.now list.now fractions.now extended_range t rho) }
    ensures memory { out.new ≡ answers.properties_written (is.properties_in file.now list.now fractions.now extended_range t rho) out.old }
{
    let range = helmholtz::extended_range();
    let answer = properties::properties(file, list, fractions, range, t, rho);
    gerg_answers::put_properties(answer, out);
    gerg_answers::accepted_code(answer)
}

#[unsafe(no_mangle)]
pub extern "C" fn gerg_fugacity_extended(
    file: &[u8],
    list: &[u8],
    fractions: &[f64],
    t: f64,
    rho: f64,
    out: &mut [f64],
) -> u64
    ensures answer { result ≡ answers.accepted_code (is.fugacity_in file.now list.now fractions.now extended_range t rho out.old) }
    ensures memory { out.new ≡ is.fugacity_written_in file.now list.now fractions.now extended_range t rho out.old }
{
    let range = helmholtz::extended_range();
    let answer = fugacity::fugacity_at(file, list, fractions, range, t, rho, out);
    gerg_answers::accepted_code(answer)
}

#[unsafe(no_mangle)]
pub extern "C" fn gerg_density_extended(
    file: &[u8],
    list: &[u8],
    fractions: &[f64],
    t: f64,
    target: f64,
    lo: f64,
    hi: f64,
    limit: u64,
    tolerance: f64,
    out: &mut [f64; 30],
) -> u64
    ensures answer { result ≡ answers.accepted_code (is.density_in file.now list.now fractions.now extended_range t target (is.options_of lo hi limit tolerance)) }
    ensures memory { out.new ≡ answers.density_written (is.density_in file.now list.now fractions.now extended_range t target (is.options_of lo hi limit tolerance)) out.old }
{
    let o = options(lo, hi, limit, tolerance);
    let range = helmholtz::extended_range();
    let answer = density::density_at(file, list, fractions, range, t, target, o);
    gerg_answers::put_density(answer, out);
    gerg_answers::accepted_code(answer)
}
