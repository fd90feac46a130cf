//! Label names, each once.
ghost use Rattle.std.specs.Prelude.{◌≡◌, [], ◌∷◌, map, length, IfOk, OnOk, OnErr};
ghost use Rattle.std.specs.List.{flat_map};
ghost use Rattle.flux_model.specs.Text.{text_cmp};
ghost use Rattle.flux_model.specs.Ordered.{put};

use flux_model::{Labels, Text, Triple, Vertex, place};
use std::alloc::{AllocError, Global};
use std::marker::Model;

/// Names in ascending order, each once.
#[derive(Drop)]
pub(crate) struct Names {
    names: Vec<Text>,
}

impl Model for Names {
    ghost use Rattle.std.specs.Prelude.{List, ℕ, IsTrue};
    ghost use Rattle.flux_model.specs.Text.{text_cmp};
    ghost use Rattle.flux_model.specs.Ordered.{is_ascending};

    ghost Value = { List (List ℕ) };

    ghost view = { λ n. n.names.items };

    ghost invariant = { λ n. IsTrue (is_ascending text_cmp n.names.items) };
}

impl Names {
    ghost use Rattle.flux_model.specs.Labels.{put_all};

    /// No names.
    pub(crate) fn new(alloc: Global) -> Names
        ensures { result ≡ [] }
    {
        Names {
            names: Vec::new(alloc),
        }
    }

    /// How many names there are.
    pub(crate) fn len(&self) -> usize
        ensures { result ≡ length self.now }
    {
        self.names.len()
    }

    /// Adds a name.
    pub(crate) fn add(&mut self, name: &Text) -> Result<(), AllocError>
        ensures ok { OnOk result (self.new ≡ put text_cmp name.now self.old) }
        ensures err { OnErr result (self.new ≡ self.old) }
    {
        match place(self.names.as_slice(), name) {
            Ok(_) => Ok(()),
            Err(at) => {
                let copy = name.copy()?;
                self.names.insert(at, copy)?;
                Ok(())
            }
        }
    }

    /// Adds the labels of a set. Where memory is wanting, some may have been added.
    #[tactic(auto, using(crate::proofs::NamesLemmas::put_all_step))]
    pub(crate) fn add_labels(&mut self, labels: &Labels) -> Result<(), AllocError>
        ensures { OnOk result (self.new ≡ put_all self.old labels.now) }
    {
        for i in 0..labels.len() {
            self.add(labels.get(i))?;
        }
        Ok(())
    }

    /// Adds the labels of vertices. Where memory is wanting, some may have been added.
    pub(crate) fn add_vertices(&mut self, vertices: &[Vertex]) -> Result<(), AllocError>
        ensures { OnOk result (self.new ≡ put_all self.old (flat_map (λ v. v.labels) vertices.now)) }
    {
        for vertex in vertices {
            self.add_labels(&vertex.labels)?;
        }
        Ok(())
    }

    /// Adds the labels of triples. Where memory is wanting, some may have been added.
    #[tactic(auto, using(crate::proofs::NamesLemmas::put_all_triple))]
    pub(crate) fn add_triples(&mut self, triples: &[Triple]) -> Result<(), AllocError>
        ensures { OnOk result (self.new ≡ put_all self.old (map (λ t. t.label) triples.now)) }
    {
        for triple in triples {
            self.add(&triple.label)?;
        }
        Ok(())
    }
}

impl Names {
    ghost use Rattle.flux_model.specs.Graph.{names_of};
    ghost use Rattle.flux_model.specs.Labels.{label_set};

    /// The names on these vertices and triples.
    #[tactic(auto, using(crate::proofs::NamesLemmas::put_all_parts))]
    pub(crate) fn of(
        alloc: Global,
        vertices: &[Vertex],
        triples: &[Triple],
    ) -> Result<Names, AllocError>
        ensures { IfOk result (λ names. names ≡ label_set (names_of (record { vertices = vertices.now; triples = triples.now }))) }
    {
        let mut names = Names::new(alloc);
        names.add_vertices(vertices)?;
        names.add_triples(triples)?;
        Ok(names)
    }
}
