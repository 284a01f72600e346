ghost use Rattle.rhythm_base.specs.BarInput.{IsBarInput};
ghost use Rattle.rhythm_base.specs.Grammar.{Grammar};
ghost use Rattle.row_laws.specs.Grounds.{ground_of};
ghost use Rattle.row_laws.specs.QuietTrees.{IsQuiet};
ghost use Rattle.std.specs.Prelude.{◌≡◌, IfSome};

use rhythm_base::BarInput;
use row_laws::Quiet;

/// How a bar sounds in which no chord begins, where the chord before it sounds throughout or not at all.
pub fn quiet_of(input: &BarInput) -> Option<Quiet>
    requires { IsBarInput input.now }
    ensures { (g : Grammar) → g.resolution ≡ input.now.resolution → IfSome result (λ q. IsQuiet q (ground_of g input.now) 0 input.now.resolution) }
{
    if !input.onsets().is_empty() {
        None
    } else if input.before() == 0 {
        Some(Quiet::Silent)
    } else if input.before() == input.length() {
        Some(Quiet::Sounding)
    } else {
        None
    }
}
