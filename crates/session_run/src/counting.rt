//! How many shared calls scripts have.
ghost use Rattle.std.specs.Prelude.{◌≡◌, IfSome, IfNone, ◌<◌};
ghost use Rattle.session_script.specs.Calls.{is_shared};
ghost use Rattle.session_machine.specs.Orders.{shared_calls};
ghost use Rattle.session_run.specs.InTurn.{calls_of};

use session_script::{Call, Script};

/// How many shared calls a script has.
pub(crate) fn count_shared(script: &[Call]) -> u64
    ensures { result ≡ shared_calls is_shared script.now }
{
    let mut count = 0;
    for call in script {
        if call.is_shared() {
            count += 1;
        }
    }
    count
}

/// How many shared calls all scripts have; `None` where the sum is no `u64`.
pub fn total_calls(scripts: &[Script]) -> Option<u64>
    ensures some { IfSome result (λ n. n ≡ calls_of scripts.now) }
    ensures none { IfNone result (u64.MAX < calls_of scripts.now) }
{
    let mut total = 0u64;
    for script in scripts {
        total = total.checked_add(count_shared(script.list()))?;
    }
    Some(total)
}
