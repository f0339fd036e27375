use crate::known::Known;
use crate::placements::Placements;

/// What is known of the kernel's own values, and of the placements by events.
#[derive(Clone, Copy)]
pub(crate) struct Learnt<'k> {
    pub known: &'k Known,
    pub placements: &'k Placements,
}
