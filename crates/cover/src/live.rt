//! Whether all objects that live have partners.
ghost use Rattle.std.specs.Prelude.{◌≡◌, ◌↔◌, true, None, slice_index_or};
ghost use Rattle.graph.specs.Maps.{object_at};
ghost use Rattle.cover.specs.Covers.{AreLivePaired};
ghost use Rattle.cover.specs.Checked.{LivesAt, HasPartnerAmong};

use graph::Graph;

/// Whether the object with a key lives.
fn lives(graph: &Graph, key: u32) -> bool
    ensures { (result ≡ true) ↔ LivesAt (object_at graph.now.objects) key }
{
    match graph.object(key) {
        Some(object) => object.live,
        None => false,
    }
}

/// Whether an object has a partner among these.
fn has_partner(partners: &[Option<u32>], key: u32) -> bool
    ensures { (result ≡ true) ↔ HasPartnerAmong partners.now key }
{
    if key as usize >= partners.len() {
        return false;
    }
    match partners[key as usize] {
        Some(_) => true,
        None => false,
    }
}

/// Whether each object that lives has a partner among these.
pub(crate) fn live_are_paired(graph: &Graph, partners: &[Option<u32>]) -> bool
    ensures { (result ≡ true) ↔ AreLivePaired (object_at graph.now.objects) (λ key. slice_index_or partners.now key None) }
{
    let count = graph.object_count();
    let mut key = 0;
    while key < count {
        if lives(graph, key) && !has_partner(partners, key) {
            return false;
        }
        key += 1;
    }
    true
}
