//! What each token of a text is for the grammar.
ghost use Rattle.std.specs.Prelude.{◌≡◌, ◌<◌, ◌^◌, find, map, option_map, bytes_eq, length, vec_len, IfOk};
ghost use Rattle.vl_lex.specs.Tokens.{AreSpans, AreTokens};
ghost use Rattle.vl_expr.specs.Terminals.{listed, import_words, keywords, operators, imports, signs, terminal_of, terminals_of};

use std::alloc::Global;
use vl_lex::{Kind, Token, Tokens, spelling};
use vl_pre::Text;
use vl_tree::Terminal;
use xt_base::NoMemory;

const IMPORT_WORDS: [(&str, Terminal); 8] = [
    ("import", Terminal::Import),
    ("context", Terminal::Context),
    ("void", Terminal::Void),
    ("bit", Terminal::Bit),
    ("byte", Terminal::Byte),
    ("shortint", Terminal::Shortint),
    ("int", Terminal::Int),
    ("longint", Terminal::Longint),
];

const KEYWORDS: [(&str, Terminal); 32] = [
    ("begin", Terminal::Begin),
    ("end", Terminal::End),
    ("if", Terminal::If),
    ("else", Terminal::Else),
    ("input", Terminal::Input),
    ("output", Terminal::Output),
    ("reg", Terminal::Reg),
    ("wire", Terminal::Wire),
    ("posedge", Terminal::Posedge),
    ("always", Terminal::Always),
    ("assign", Terminal::Assign),
    ("module", Terminal::Module),
    ("endmodule", Terminal::Endmodule),
    ("signed", Terminal::Signed),
    ("integer", Terminal::Integer),
    ("parameter", Terminal::Parameter),
    ("localparam", Terminal::Localparam),
    ("case", Terminal::Case),
    ("endcase", Terminal::Endcase),
    ("default", Terminal::Default),
    ("for", Terminal::For),
    ("while", Terminal::While),
    ("repeat", Terminal::Repeat),
    ("forever", Terminal::Forever),
    ("disable", Terminal::Disable),
    ("task", Terminal::Task),
    ("endtask", Terminal::Endtask),
    ("function", Terminal::Function),
    ("endfunction", Terminal::Endfunction),
    ("initial", Terminal::Initial),
    ("negedge", Terminal::Negedge),
    ("unsigned", Terminal::Unsigned),
];

/// The most frequent first.
const OPERATORS: [(&str, Terminal); 44] = [
    (";", Terminal::Semicolon),
    (",", Terminal::Comma),
    ("(", Terminal::OpenParen),
    (")", Terminal::CloseParen),
    ("[", Terminal::OpenBracket),
    ("]", Terminal::CloseBracket),
    (":", Terminal::Colon),
    ("=", Terminal::Equals),
    ("<=", Terminal::LessEqual),
    ("+", Terminal::Plus),
    ("-", Terminal::Minus),
    ("{", Terminal::OpenBrace),
    ("}", Terminal::CloseBrace),
    ("@", Terminal::AtSign),
    (".", Terminal::Dot),
    ("#", Terminal::Hash),
    ("?", Terminal::Question),
    ("&", Terminal::Ampersand),
    ("|", Terminal::Bar),
    ("^", Terminal::Caret),
    ("~", Terminal::Tilde),
    ("!", Terminal::Bang),
    ("<", Terminal::Less),
    (">", Terminal::Greater),
    ("*", Terminal::Star),
    ("/", Terminal::Slash),
    ("%", Terminal::Percent),
    ("==", Terminal::Equal),
    ("!=", Terminal::NotEqual),
    (">=", Terminal::GreaterEqual),
    ("&&", Terminal::DoubleAmpersand),
    ("||", Terminal::DoubleBar),
    ("<<", Terminal::ShiftLeft),
    (">>", Terminal::ShiftRight),
    ("+:", Terminal::PlusColon),
    ("-:", Terminal::MinusColon),
    ("~&", Terminal::TildeAmpersand),
    ("~|", Terminal::TildeBar),
    ("~^", Terminal::TildeCaret),
    ("^~", Terminal::TildeCaret),
    ("===", Terminal::CaseEqual),
    ("!==", Terminal::CaseNotEqual),
    ("<<<", Terminal::ArithmeticLeft),
    (">>>", Terminal::ArithmeticRight),
];

const IMPORTS: [(&str, Terminal); 2] = [("\"DPI-C\"", Terminal::Dpi), ("\"DPI\"", Terminal::Dpi)];

const SIGNS: [(&str, Terminal); 2] = [
    ("$signed", Terminal::ToSigned),
    ("$unsigned", Terminal::ToUnsigned),
];

/// The first entry of a table that has the bytes.
fn first_entry(table: &[(&str, Terminal)], bytes: &[u8]) -> Option<Terminal>
    ensures { result ≡ option_map (λ entry. entry.1) (find (λ entry. bytes_eq entry.0.now bytes.now) table.now) }
{
    table
        .iter()
        .find(|entry| entry.0.as_bytes() == bytes)
        .map(|entry| entry.1)
}

/// What the bytes stand for in a table.
fn entry(table: &[(&str, Terminal)], bytes: &[u8]) -> Option<Terminal>
    ensures { result ≡ listed (map (λ entry. (entry.0.now, entry.1)) table.now) bytes.now }
{
    first_entry(table, bytes)
}

#[tactic(auto, unfolding(crate::specs::Terminals::import_words))]
fn import_word(bytes: &[u8]) -> Option<Terminal>
    ensures { result ≡ listed import_words bytes.now }
{
    entry(&IMPORT_WORDS, bytes)
}

#[tactic(auto, unfolding(crate::specs::Terminals::keywords))]
fn keyword(bytes: &[u8]) -> Option<Terminal>
    ensures { result ≡ listed keywords bytes.now }
{
    entry(&KEYWORDS, bytes)
}

#[tactic(auto, unfolding(crate::specs::Terminals::operators))]
fn operator(bytes: &[u8]) -> Option<Terminal>
    ensures { result ≡ listed operators bytes.now }
{
    entry(&OPERATORS, bytes)
}

#[tactic(auto, unfolding(crate::specs::Terminals::imports))]
fn import_string(bytes: &[u8]) -> Option<Terminal>
    ensures { result ≡ listed imports bytes.now }
{
    entry(&IMPORTS, bytes)
}

#[tactic(auto, unfolding(crate::specs::Terminals::signs))]
fn sign(bytes: &[u8]) -> Option<Terminal>
    ensures { result ≡ listed signs bytes.now }
{
    entry(&SIGNS, bytes)
}

/// What a token of a kind is for the grammar.
fn terminal(kind: Kind, bytes: &[u8]) -> Terminal
    ensures { result ≡ terminal_of kind bytes.now }
{
    match kind {
        Kind::Word => import_word(bytes).unwrap_or(Terminal::Identifier),
        Kind::Reserved => keyword(bytes).unwrap_or(Terminal::Other),
        Kind::Decimal => Terminal::Decimal,
        Kind::Based => Terminal::Based,
        Kind::Quoted => import_string(bytes).unwrap_or(Terminal::Other),
        Kind::Operator => operator(bytes).unwrap_or(Terminal::Other),
        Kind::System => sign(bytes).unwrap_or(Terminal::Other),
    }
}

/// What the tokens in these spans are for the grammar.
fn classified(alloc: Global, text: &[u8], tokens: &[Token]) -> Result<Vec<Terminal>, NoMemory>
    requires { AreSpans tokens.now (length text.now) }
    ensures { IfOk result (λ all. all.items ≡ terminals_of text.now tokens.now) }
{
    let mut all = Vec::with_capacity(alloc, tokens.len())?;
    for token in tokens {
        all.push(terminal(token.kind, spelling(text, token)))?;
    }
    Ok(all)
}

/// What the tokens of a text are for the grammar, one for each.
pub fn terminals(alloc: Global, text: &Text, tokens: &Tokens) -> Result<Vec<Terminal>, NoMemory>
    requires { AreTokens text.now.bytes tokens.now }
    ensures each { IfOk result (λ all. all.items ≡ terminals_of text.now.bytes tokens.now) }
    ensures count { IfOk result (λ all. vec_len all ≡ length tokens.now) }
    ensures size { IfOk result (λ all. vec_len all < 2 ^ 31) }
{
    classified(alloc, text.bytes(), tokens.list())
}
