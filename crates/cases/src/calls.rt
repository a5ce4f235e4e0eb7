//! The calls that cases are run over, each under the name of its folder.
use crate::designs::{prefixes, rewritten};
use crate::evaluations::computed;
use crate::machines::run;
use crate::names::classes;
use crate::numbers::value;
use crate::operators::operator;
use crate::programs::ended;
use case_file::{Case, Stop, expanded, tokens};
use case_front::{expression, tree};
use case_middle::{form, names, value as constant};
use std::alloc::Global;

/// What a call gives for a case.
pub fn answer(alloc: Global, call: &str, case: &Case) -> Result<String, Stop> {
    match call {
        "names" => classes(alloc, case),
        "numbers" => value(alloc, case),
        "operators" => operator(alloc, case),
        "expand" => expanded(alloc, case),
        "lex" => tokens(alloc, case),
        "expressions" => expression(alloc, case),
        "parse" => tree(alloc, case),
        "scopes" => names(alloc, case),
        "constants" => constant(alloc, case),
        "forms" => form(alloc, case),
        "designs" => rewritten(alloc, case),
        "prefixes" => prefixes(alloc, case),
        "evaluate" => computed(alloc, case),
        "run" => run(alloc, case),
        "commands" => ended(alloc, case),
        _ => Err(Stop::Malformed),
    }
}
