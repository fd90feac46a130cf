//! Laws of updates that add or remove a vertex.
ghost use Rattle.flux_laws.specs.VerticesLaws.{AddedVertexChangesNoEmbedding, DroppedVertexChangesNoEmbedding};

/// A vertex that is added has no edge yet, so a pattern of several vertices, or with an edge, gains nothing by it.
pub fn added_vertex_changes_no_embedding()
    ensures { AddedVertexChangesNoEmbedding }
{}

/// A vertex that is removed has no edge any more, so a pattern of several vertices, or with an edge, loses nothing by it.
pub fn dropped_vertex_changes_no_embedding()
    ensures { DroppedVertexChangesNoEmbedding }
{}
