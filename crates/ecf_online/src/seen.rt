//! Which invocations have steps.

ghost use Rattle.std.specs.Prelude.{◌≡◌, ◌≤◌, ◌<◌, ◌/◌, List, ◌∷◌, length};
ghost use Rattle.ecf_lang.specs.declared.run.Step.{Step};
ghost use Rattle.ecf_online.specs.Watched.{HasSeen};

use ecf_graph::Row;
use ecf_lang::run::Step;

/// Puts in the invocation of a step, for which there is room.
pub fn see_step(seen: &mut Row, above: &mut u32, step: &Step)
    requires { step.now.inv / 64 < length seen.old }
    ensures seen { (e : List Step) → HasSeen e seen.old above.old → HasSeen (step.now ∷ e) seen.new above.new }
    ensures words { length seen.new ≡ length seen.old }
{
    seen.put(step.inv);
    let next = u32::from(step.inv) + 1;
    if next > *above {
        *above = next;
    }
}

/// The number, or 65,536 where it is more.
pub fn capped(n: u32) -> u32
    ensures few { result ≤ 65536 }
    ensures same { n ≤ 65536 → result ≡ n }
{
    if n < 65536 { n } else { 65536 }
}
