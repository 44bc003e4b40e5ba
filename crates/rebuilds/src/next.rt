// The label of the next generation.
ghost use Rattle.std.specs.Prelude.{◌≡◌, false};
ghost use Rattle.requests.specs.TakeOut.{next_label};
ghost use Rattle.rebuilds.specs.Judge.{last_one};

use label::fields::Label;

// The label of the next generation, with these changes.
#[tactic(auto, unfolding(crate::specs::Judge::last_one))]
pub(crate) fn next_label(l: Label, out: u64, rebuilding: usize, mark: usize) -> Label
    requires { last_one l ≡ false }
    ensures { result ≡ next_label l out rebuilding mark }
{
    Label {
        generation: l.generation + 1,
        out,
        rebuilding,
        mark,
        ..l
    }
}
