//! Whether labels are those of a row.
use flux_model::Labels;

/// Whether the labels have these names, in this order.
pub fn are_labels(labels: &Labels, names: &[&str]) -> bool {
    if labels.len() != names.len() {
        return false;
    }
    for i in 0..names.len() {
        if labels.get(i).bytes() != names[i].as_bytes() {
            return false;
        }
    }
    true
}
