// Check 1.
ghost use Rattle.std.specs.Prelude.{◌≡◌, IfOk};
ghost use Rattle.hazard.specs.Refusal.{inputs_check};
ghost use Rattle.refusal.specs.Answer.{refused_by};

use cube::inputs::Inputs;
use refusal::refusal::Refusal;

// 1: n is 0 or above 10. Where it is neither, it is a number of inputs.
pub fn check_inputs(n: usize) -> Result<Inputs, Refusal>
    ensures refused { refused_by result ≡ inputs_check n }
    ensures taken { IfOk result (λ inputs. inputs.count ≡ n) }
{
    if n == 0 || 10 < n {
        return Err(Refusal::Inputs);
    }
    Ok(Inputs { count: n })
}
