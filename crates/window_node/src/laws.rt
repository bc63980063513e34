//! What windows give: laws, and no code.

ghost use Rattle.std.specs.Prelude.{◌<◌, ◌<ℤ◌, ◌∷◌, All, List};
ghost use Rattle.kap_base.specs.Points.{PointValue};
ghost use Rattle.window_node.specs.Batches.{times};
ghost use Rattle.window_node.specs.declared.edges.EdgeWindow.{EdgeWindow};
ghost use Rattle.window_node.specs.Edges.{edge_of, first_edge};
ghost use Rattle.window_node.specs.Rows.{EachSecond, EachThird, EmptyBatch, FallingTimes, FilledCount, FilledEdges, FilledPeriod, LatePoint, OnTheEdge};
ghost use Rattle.window_node.specs.Waiting.{Waits};

/// The edge that waits behind points of a group is the first one while all later points are before it, or was
/// set by the last point that wasn't before the edge that waited there. All points so far are before it, so
/// that one point emits one edge.
pub fn edges_are_set_by_points()
    ensures waits { (w : EdgeWindow) (first : PointValue) (others : List PointValue)
        → Waits w (first_edge w first.time) (times others) (edge_of w first others) }
    ensures before { (w : EdgeWindow) (first : PointValue) (others : List PointValue)
        → 0 < w.every → 0 < w.period
        → All (λ t. t <ℤ edge_of w first others) (times (first ∷ others)) }
{}

/// Examples of windows, by the times of their points.
pub fn examples_of_windows()
    ensures on_the_edge { OnTheEdge }
    ensures filled_edges { FilledEdges }
    ensures empty_batch { EmptyBatch }
    ensures falling_times { FallingTimes }
    ensures late_point { LatePoint }
    ensures filled_period { FilledPeriod }
    ensures each_third { EachThird }
    ensures each_second { EachSecond }
    ensures filled_count { FilledCount }
{}
