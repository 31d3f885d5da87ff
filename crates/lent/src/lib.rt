// The walker lent to the call and moved on by one neighbour: a thin shell over the step by value.
#![tactic(auto)]

ghost use Rattle.std.specs.Prelude.{◌≡◌};
ghost use Rattle.tables.specs.Net.{net_of};
ghost use Rattle.tables.specs.Answers.{out, told_node};
ghost use Rattle.walker.specs.Steps.{step};

use index::{NodeIndex, Refusal};
use tables::Network;
use walker::Walker;

// On to the next neighbour. At its end the walker stands where the step says; at 6, and at 1, it is as it was.
pub fn next(w: &mut Walker, net: Network) -> Result<NodeIndex, Refusal>
    ensures { out (told_node result) w.new ≡ step (net_of net.entry) w.old }
{
    let step = w.step(net);
    *w = step.walker;
    step.neighbor
}
