//! Expressions of an instance: the values of constants, and typed forms.
ghost use Rattle.std.specs.Prelude.{◌≡◌, ◌<◌, length, IfOk, IfSome, OnOk};
ghost use Rattle.vl_lex.specs.Tokens.{AreSpans, AreTokens};

use crate::forms::show;
use crate::meanings::{context, is_meaning, meaning};
use case_file::{Case, Stop, as_text, failed, refused, text};
use el_width::{Constant, Env, constant, type_expr};
use std::alloc::Global;
use vl_expr::parse_expr;
use vl_lex::{Token, Tokens, lex};
use vl_pre::Text;
use vl_tree::Expr;
use xt_base::{Fail, Finder};

/// The greatest depth of an expression, and of a typed form that is shown.
const DEPTH: u32 = 128;

fn spelled<'a>(text: &'a Text, token: &Token) -> &'a [u8] {
    let bytes = text.bytes();
    bytes
        .get(token.start as usize..token.end as usize)
        .unwrap_or(b"")
}

/// The first token that is spelled so.
fn first_of(text: &Text, tokens: &[Token], word: &[u8]) -> Option<usize>
    ensures { IfSome result (λ at. at < length tokens.now) }
{
    tokens.iter().position(|token| spelled(text, token) == word)
}

/// For each token the first that is spelled like it: where it is declared.
fn bindings(alloc: Global, text: &Text, tokens: &[Token]) -> Result<Vec<u32>, Stop> {
    let mut bound = Vec::new(alloc);
    for token in tokens {
        let at = first_of(text, tokens, spelled(text, token)).unwrap_or(0);
        bound.push(u32::try_from(at).unwrap_or(u32::MAX))?;
    }
    Ok(bound)
}

/// What the fields of a case say of the names of an expression.
fn environment<'a>(
    alloc: Global,
    case: &Case,
    text: &'a Text,
    tokens: &'a [Token],
    bound: &'a [u32],
) -> Result<Env<'a>, Stop>
    requires { AreSpans tokens.now (length text.now.bytes) }
{
    let mut env = Env::new(alloc, text, tokens, bound, 0)?;
    for field in case.fields.as_slice() {
        let word = field.word.as_str();
        if is_meaning(word) {
            let words = as_text(field.text.as_slice())?;
            let (name, words) = words.split_once(' ').unwrap_or((words, ""));
            let meaning = meaning(alloc, word, words)?;
            if let Some(at) = first_of(text, tokens, name.as_bytes())
                && let Ok(at) = u32::try_from(at)
            {
                env.add(at, meaning);
            }
        }
    }
    Ok(env)
}

/// The expression that a text begins with.
fn expression(alloc: Global, text: &Text, tokens: &Tokens) -> Result<Expr, Fail>
    requires { AreTokens text.now.bytes tokens.now }
{
    if tokens.list().is_empty() {
        return Err(Fail::Memory);
    }
    let (tree, _) = parse_expr(alloc, text, tokens, 0, DEPTH)?;
    Ok(tree)
}

/// A constant as Verilog writes it.
fn shown(alloc: Global, found: Option<Constant>) -> Result<String, Stop> {
    let Some(Constant { value, signed }) = found else {
        return Ok(String::from_str(alloc, "no value")?);
    };
    let base = if signed { "sd" } else { "d" };
    Ok(format!(in alloc; "{}'{base}{}", value.width(), value.value())?)
}

/// The value of an expression as a constant, or the first break in it.
fn value_in(alloc: Global, case: &Case, env: &Env<'_>, tree: &Expr) -> Result<String, Stop> {
    let mut finder = Finder::new();
    let found = constant(alloc, env, tree, context(case)?, &mut finder)?;
    match finder.first {
        Some(refusal) => refused(alloc, refusal),
        None => shown(alloc, found),
    }
}

/// The typed form of an expression, or the first break in it.
fn form_in(alloc: Global, case: &Case, env: &Env<'_>, tree: &Expr) -> Result<String, Stop> {
    let mut finder = Finder::new();
    let form = type_expr(alloc, env, tree, context(case)?, &mut finder)?;
    if let Some(refusal) = finder.first {
        return refused(alloc, refusal);
    }
    let mut out = String::new(alloc);
    show(DEPTH, &form, &mut out)?;
    Ok(out)
}

/// What is asked of an expression.
#[derive(Clone, Copy, Debug)]
enum Question {
    Value,
    Form,
}

fn answer(alloc: Global, case: &Case, question: Question) -> Result<String, Stop> {
    let text = text(alloc, case)?;
    let tokens = match lex(alloc, &text) {
        Ok(tokens) => tokens,
        Err(fail) => return failed(alloc, fail),
    };
    let tree = match expression(alloc, &text, &tokens) {
        Ok(tree) => tree,
        Err(fail) => return failed(alloc, fail),
    };
    let bound = bindings(alloc, &text, tokens.list())?;
    let env = environment(alloc, case, &text, tokens.list(), &bound)?;
    match question {
        Question::Value => value_in(alloc, case, &env, &tree),
        Question::Form => form_in(alloc, case, &env, &tree),
    }
}

/// The value of the expression that a text begins with, in the context of the field `context`.
pub fn value(alloc: Global, case: &Case) -> Result<String, Stop> {
    answer(alloc, case, Question::Value)
}

/// Its typed form.
pub fn form(alloc: Global, case: &Case) -> Result<String, Stop> {
    answer(alloc, case, Question::Form)
}
