//! The operators and punctuation.
ghost use Rattle.std.specs.Prelude.{◌≡◌, nat_eq, length, map, find};
ghost use Rattle.std.specs.List.{starts_with};
ghost use Rattle.std.specs.Option.{option_map};
ghost use Rattle.vl_lex.specs.Fronts.{LongestFront};
ghost use Rattle.vl_lex.specs.Operators.{IsOperator};

/// Longest first, so that the first with which a text begins is the longest.
const OPERATORS: [&str; 44] = [
    "===", "!==", "<<<", ">>>", "==", "!=", "<=", ">=", "&&", "||", "<<", ">>", "~&", "~|", "~^",
    "^~", "+:", "-:", "(", ")", "[", "]", "{", "}", ",", ";", ":", ".", "#", "@", "?", "=", "+",
    "-", "*", "/", "%", "&", "|", "^", "~", "!", "<", ">",
];

/// The length of the first of those listed with which the text begins.
fn first_len(rest: &[u8], list: &[&str]) -> Option<usize>
    ensures { result ≡ option_map length (find (λ listed. starts_with nat_eq rest.now listed) (map (λ listed. listed.now) list.now)) }
{
    for listed in list {
        if rest.starts_with(listed.as_bytes()) {
            return Some(listed.len());
        }
    }
    None
}

/// The length of the operator that the text begins with.
pub fn operator_len(rest: &[u8]) -> Option<usize>
    ensures { LongestFront IsOperator rest.now result }
{
    first_len(rest, &OPERATORS)
}
