// The residual that row 22 allows, and the answer in lent memory: rows 23 and 24, then the roots.
#![tactic(auto, unfolding(crate::specs::RootList::limit_of, crate::specs::RootList::answer_of, crate::specs::RootList::memory_by))]

ghost use Rattle.std.specs.Prelude.{◌≡◌, ◌+◌, ◌*◌, ◌≤◌, length};
ghost use Rattle.gerg_scan_steps.specs.Answers.{leaves};
ghost use Rattle.gerg_root_list.specs.RootList as is;

use crate::Root;
use gerg_reducing::GergModel;
use gerg_refusals::Refusal;
use gerg_scan_steps::halve;

// Row 22 refuses a root whose residual is larger. Beside `halve::tolerance`, which has another factor, one function of the factor would be no plainer.
pub fn limit(target: f64) -> f64
    ensures { result ≡ is.limit_of target }
{
    halve::larger(5e-12 * target, 2e-7)
}

// The numbers of a root, from a place on. `components` stands beside it, since its 21 coefficients are fixed memory of which each root of a list uses as many as the model has.
// Its bound is all that is asked of `Listed` here. Places are counted in all of `out`, as `roots_written` counts them: of chunks the proof would put each back.
fn put_root(out: &mut [f64], root: &Root, components: usize, at: usize)
    requires { (components ≤ 21) × (at + (4 + components) ≤ length out.old) }
    ensures { out.new ≡ is.root_written root.now (4 + components) at out.old }
{
    let middle = at + 4;
    out[at..middle].copy_from_slice(&root.head);
    out[middle..middle + components].copy_from_slice(&root.coefficients[..components]);
}

fn put_roots(out: &mut [f64], roots: &[Root], components: usize)
    requires { (components ≤ 21) × (length roots.now ≤ 386) × (length roots.now * (4 + components) ≤ length out.old) }
    ensures { out.new ≡ is.roots_written roots.now (4 + components) (length roots.now) out.old }
{
    let m = 4 + components;
    for (k, root) in roots.iter().enumerate() {
        put_root(out, root, components, k * m);
    }
}

// A refusal of the search, rows 23 and 24, then the roots.
pub fn finish(
    searched: Result<(), Refusal>,
    roots: &[Root],
    model: &GergModel,
    out: &mut [f64],
) -> Result<usize, Refusal>
    requires { (length roots.now ≤ 386) × (model.now.components ≤ 21) }
    ensures answer { result ≡ is.answer_of model.now (length out.old) (leaves searched roots.now) }
    ensures memory { out.new ≡ is.memory_by model.now (leaves searched roots.now) (is.answer_of model.now (length out.old) (leaves searched roots.now)) out.old }
{
    let n = roots.len();
    searched?;
    if n == 0 {
        return Err(Refusal::NoRoot);
    }
    let m = 4 + model.components;
    let needed = n * m;
    if out.len() < needed {
        return Err(Refusal::TooShort { needed });
    }
    put_roots(out, roots, model.components);
    Ok(n)
}
