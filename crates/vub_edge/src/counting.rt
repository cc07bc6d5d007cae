// How calls of the system are counted.
ghost use Rattle.std.specs.Prelude.{◌≡◌, Ok, IsErr, MatchResult};
ghost use Rattle.vub_base.specs.Causes.{HasCause};

use vub_base::Failed;

// The answer of a call. One that failed is counted, and its error isn't kept.
pub fn counted<T, E: Drop>(faults: &mut u64, answer: Result<T, E>) -> Result<T, Failed>
    ensures answer { MatchResult answer (λ x. result ≡ Ok x) (λ _. IsErr result) }
    ensures cause { HasCause faults.old faults.new result }
{
    match answer {
        Ok(value) => Ok(value),
        Err(_) => {
            *faults = faults.saturating_add(1);
            Err(Failed)
        }
    }
}
