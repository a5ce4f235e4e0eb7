//! What a token is for the grammar.

/// A token as the grammar tells tokens apart: each keyword and each operator of the grammar by itself, the other
/// tokens by their kind.
#[derive(Clone, Copy, Debug, PartialEq, Eq)]
pub enum Terminal {
    /// An identifier that is none of the words of an import declaration.
    Identifier,
    // Identifiers that have a meaning in an import declaration.
    Import,
    Context,
    Void,
    Bit,
    Byte,
    Shortint,
    Int,
    Longint,

    // Keywords.
    Always,
    Assign,
    Begin,
    Case,
    Default,
    Disable,
    Else,
    End,
    Endcase,
    Endfunction,
    Endmodule,
    Endtask,
    For,
    Forever,
    Function,
    If,
    Initial,
    Input,
    Integer,
    Localparam,
    Module,
    Negedge,
    Output,
    Parameter,
    Posedge,
    Reg,
    Repeat,
    Signed,
    Task,
    Unsigned,
    While,
    Wire,

    /// A decimal number.
    Decimal,
    /// A quote, a base and digits.
    Based,
    /// `"DPI-C"` or `"DPI"`.
    Dpi,
    /// `$signed`
    ToSigned,
    /// `$unsigned`
    ToUnsigned,
    /// A keyword, a string or a system name that has no place in the grammar.
    Other,

    /// `(`
    OpenParen,
    /// `)`
    CloseParen,
    /// `[`
    OpenBracket,
    /// `]`
    CloseBracket,
    /// `{`
    OpenBrace,
    /// `}`
    CloseBrace,
    /// `,`
    Comma,
    /// `;`
    Semicolon,
    /// `:`
    Colon,
    /// `.`
    Dot,
    /// `#`
    Hash,
    /// `@`
    AtSign,
    /// `?`
    Question,
    /// `=`
    Equals,
    /// `+:`
    PlusColon,
    /// `-:`
    MinusColon,

    /// `+`
    Plus,
    /// `-`
    Minus,
    /// `*`
    Star,
    /// `/`
    Slash,
    /// `%`
    Percent,
    /// `&`
    Ampersand,
    /// `|`
    Bar,
    /// `^`
    Caret,
    /// `~^` or `^~`
    TildeCaret,
    /// `~&`
    TildeAmpersand,
    /// `~|`
    TildeBar,
    /// `~`
    Tilde,
    /// `!`
    Bang,
    /// `<`
    Less,
    /// `<=`
    LessEqual,
    /// `>`
    Greater,
    /// `>=`
    GreaterEqual,
    /// `==`
    Equal,
    /// `!=`
    NotEqual,
    /// `===`
    CaseEqual,
    /// `!==`
    CaseNotEqual,
    /// `&&`
    DoubleAmpersand,
    /// `||`
    DoubleBar,
    /// `<<`
    ShiftLeft,
    /// `>>`
    ShiftRight,
    /// `<<<`
    ArithmeticLeft,
    /// `>>>`
    ArithmeticRight,
}
