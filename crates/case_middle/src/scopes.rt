//! The rules on names.
use case_file::{Case, Stop, failed, text};
use el_scope::Scopes;
use std::alloc::Global;
use vl_lex::lex;
use vl_parse::parse;

/// `fits` where the names of a source break no rule, else the first break.
pub fn names(alloc: Global, case: &Case) -> Result<String, Stop> {
    let text = text(alloc, case)?;
    let tokens = match lex(alloc, &text) {
        Ok(tokens) => tokens,
        Err(fail) => return failed(alloc, fail),
    };
    let tree = match parse(alloc, &text, &tokens) {
        Ok(tree) => tree,
        Err(fail) => return failed(alloc, fail),
    };
    let scopes = match Scopes::build(alloc, &text, &tokens, &tree) {
        Ok(scopes) => scopes,
        Err(fail) => return failed(alloc, fail),
    };
    match scopes.check(alloc, &tree) {
        Ok(()) => Ok(String::from_str(alloc, "fits")?),
        Err(fail) => failed(alloc, fail),
    }
}
