//! The graphs of a state that changes made.
ghost use Rattle.std.specs.Prelude.{◌≡◌, All};
ghost use Rattle.step_relation.specs.Images.{IsMade};
ghost use Rattle.state_images.specs.Formed.{IsAligned};

use core_state::{Graph, State};

// The graphs, each with as many points as nodes.
pub(crate) fn aligned_graphs(s: &State) -> &[Graph]
    requires { IsMade s.now.state }
    ensures all { result.now ≡ s.now.state.graphs }
    ensures aligned { All IsAligned s.now.state.graphs }
{
    s.graphs()
}
