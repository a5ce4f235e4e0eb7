//! Which classes of names a name is of.
use case_file::{Case, Stop};
use nt_core::is_pin_name;
use std::alloc::Global;
use vl_pre::is_directive;
use xt_base::{is_identifier, is_reserved, is_word};

/// The classes that a name is of, as `word identifier pin`.
pub fn classes(alloc: Global, case: &Case) -> Result<String, Stop> {
    let name = case.text("name")?;
    let mut classes = String::new(alloc);
    for (class, is_of_it) in [
        ("word", is_word(name)),
        (" reserved", is_reserved(name)),
        (" identifier", is_identifier(name)),
        (" pin", is_pin_name(name)),
        (" directive", is_directive(name)),
    ] {
        if is_of_it {
            classes.push_str(class)?;
        }
    }
    Ok(classes)
}
