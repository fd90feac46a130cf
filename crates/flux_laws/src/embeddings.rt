//! Laws of the embeddings of a pattern in a graph.
ghost use Rattle.flux_laws.specs.EmbeddingsLaws.{EmbeddingsAreAll, EmbeddingsAreMaps, EmbeddingsAscend};

/// The embeddings in a graph stand in strictly ascending order, each once.
pub fn embeddings_ascend()
    ensures { EmbeddingsAscend }
{}

/// The list of embeddings has every embedding and nothing else.
pub fn embeddings_are_all()
    ensures { EmbeddingsAreAll }
{}

/// The embeddings are exactly the maps of the pattern's vertices to vertices of the graph that keep labels and edges, and
/// that give no id twice where the mode is `iso`.
pub fn embeddings_are_maps()
    ensures { EmbeddingsAreMaps }
{}
