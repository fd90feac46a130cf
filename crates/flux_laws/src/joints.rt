//! Laws of changes that leave the joints of a pattern's tree as they were.
ghost use Rattle.flux_laws.specs.JointsLaws.{AddedVertexKeepsJoints, DroppedVertexKeepsJoints, AddedTripleKeepsJoined, DroppedTripleKeepsJoined};

/// The graph with a vertex more that no triple ends at has the same joints.
pub fn added_vertex_keeps_joints()
    ensures { AddedVertexKeepsJoints }
{}

/// The graph with a vertex fewer that no triple ends at has the same joints.
pub fn dropped_vertex_keeps_joints()
    ensures { DroppedVertexKeepsJoints }
{}

/// The graph with a triple more whose label no edge of the pattern has: the same vertices fit, and the joints are the same.
pub fn added_triple_keeps_joined()
    ensures { AddedTripleKeepsJoined }
{}

/// The graph with a triple fewer whose label no edge of the pattern has: the same vertices fit, and the joints are the same.
pub fn dropped_triple_keeps_joined()
    ensures { DroppedTripleKeepsJoined }
{}
