//! Laws of sets, which are kept as ascending lists.
ghost use Rattle.flux_model.specs.Text.{text_cmp};
ghost use Rattle.flux_model.specs.Graph.{vertex_cmp, triple_cmp};
ghost use Rattle.flux_laws.specs.SetsLaws.{PutKeepsOrder, PutAddsOne, IsInIsMembership, IsDeterminedByMembers, LabelSetIsAscending, LabelSetHasTheNames};

/// An ascending list with one more element put in is ascending.
pub fn put_keeps_order()
    ensures texts { PutKeepsOrder text_cmp }
    ensures vertices { PutKeepsOrder vertex_cmp }
    ensures triples { PutKeepsOrder triple_cmp }
{}

/// What is in a list with one more element put in is that element or was in the list before.
pub fn put_adds_one()
    ensures texts { PutAddsOne text_cmp }
    ensures vertices { PutAddsOne vertex_cmp }
    ensures triples { PutAddsOne triple_cmp }
{}

/// Labels and triples are in a list exactly where they are elements of it.
pub fn is_in_is_membership()
    ensures texts { IsInIsMembership text_cmp }
    ensures triples { IsInIsMembership triple_cmp }
{}

/// Two ascending lists of the same elements are one.
pub fn is_determined_by_members()
    ensures texts { IsDeterminedByMembers text_cmp }
    ensures triples { IsDeterminedByMembers triple_cmp }
{}

/// The label set of some names is ascending.
pub fn label_set_is_ascending()
    ensures { LabelSetIsAscending }
{}

/// The label set of some names has these names as its elements, and no others.
pub fn label_set_has_the_names()
    ensures { LabelSetHasTheNames }
{}
