//! A caller of `power_index`.
ghost use Rattle.std.specs.Prelude.{IfOk, IsOkUnless};
ghost use Rattle.council_core.specs.declared.refusals.Refusal.TheVariants.{OutOfMemory};
ghost use Rattle.power_index.specs.Indices.{AreIndices};

use council_core::{Refusal, Sheet};
use majority_rule::Majority;
use power_index::{Evaluator, Indices};
use std::alloc::Global;

/// Returns the exact indices of `sheet` under `majority`. Out of memory is the only refusal.
pub fn evaluate_once(alloc: Global, sheet: &Sheet, majority: Majority) -> Result<Indices, Refusal>
    ensures exact { IfOk result (λ indices. AreIndices majority sheet.now indices) }
    ensures memory { IsOkUnless result OutOfMemory }
{
    let mut evaluator = Evaluator::new(alloc)?;
    let _changed = evaluator.set(sheet);
    Ok(evaluator.evaluate(majority))
}
