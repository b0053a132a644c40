//! A point that is written into its stack's graph.
ghost use Rattle.core_state.specs.Changes.{with_point};

use crate::graph::Graph;
use keyed_table::Rewrite;
use sync_points::Point;

/// A node's point, which goes over the one that its graph has.
#[derive(Debug, Drop)]
pub(crate) struct PointWrite {
    pub(crate) point: Point,
}

impl Rewrite<Graph> for PointWrite {
    ghost after = { λ w g. with_point w.point g };

    fn write(self, graph: &mut Graph) {
        graph.points.set(self.point);
    }
}
