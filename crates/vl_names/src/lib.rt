//! The names in a source's tree: what it declares, what instances of its modules reach, and where names stand.
#![tactic(auto)]

mod declare;
mod interfaces;
mod kinds;
mod mentions;

pub use declare::{DEFINITIONS, declarations};
pub use interfaces::interface;
pub use kinds::{Declaration, Entity, EntityKind, Interface, Mention, Role, Selects, Side, Stand};
pub use mentions::tree_mentions;
