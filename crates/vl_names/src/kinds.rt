//! What names are declared as, and how they stand.
use sqlite_items::Items;

/// What a name is declared as.
#[derive(Clone, Copy, Debug, PartialEq, Eq)]
pub enum EntityKind {
    Module,
    Param,
    Net,
    Var,
    Memory,
    Task,
    Function,
    Import,
    Block,
    Instance,
}

/// A declared thing, with the token of its name.
///
/// A scope is the token of the name of the module, task, function or block that it is the scope of. A module's own is its name.
#[derive(Clone, Copy, Debug, PartialEq, Eq)]
pub struct Entity {
    pub kind: EntityKind,
    pub at: u32,
    pub scope: u32,
}

/// How an instance of a module reaches a thing that the module declares.
#[derive(Clone, Copy, Debug, PartialEq, Eq)]
pub enum Side {
    /// It doesn't.
    Inner,
    /// By a connection to an input.
    Input,
    /// By a connection to an output.
    Output,
    /// By an override; a `localparam` has none.
    Parameter,
}

/// A declaration.
#[derive(Clone, Copy, Debug, PartialEq, Eq)]
pub struct Declaration {
    pub entity: Entity,
    /// There are bits to select: those of a range or of an `integer`. Of a memory, in its words.
    pub ranged: bool,
    pub side: Side,
}

/// What instances of a module reach.
#[derive(Drop)]
pub struct Interface {
    /// The token of the module's name.
    pub name: u32,
    /// In the order of the header.
    pub ports: Items<Declaration>,
    /// In the order of declaration, without the `localparam` ones.
    pub parameters: Items<Declaration>,
}

/// The selects behind a name.
#[derive(Clone, Copy, Debug, PartialEq, Eq)]
pub enum Selects {
    Alone,
    /// `[index]`
    Index,
    /// `[msb:lsb]`, `[base +: width]` or `[base -: width]`
    Part,
    /// An index, and a select behind it.
    Two,
}

/// How a name stands.
#[derive(Clone, Copy, Debug, PartialEq, Eq)]
pub enum Role {
    /// In an expression.
    Read(Selects),
    /// As the target of a procedural assignment.
    Stored(Selects),
    /// As the variable of a `for`.
    Counted,
    /// As the target of `assign`.
    Driven,
    /// As a call in an expression.
    Called,
    /// As a statement.
    Enabled,
    /// In an edge wait.
    Waited,
}

/// Where a name stands.
#[derive(Clone, Copy, Debug, PartialEq, Eq)]
pub struct Stand {
    pub scope: u32,
    /// In a constant expression of a declaration, the token before which a parameter has to be declared.
    pub before: Option<u32>,
}

/// A name by its token, where it stands.
#[derive(Drop)]
pub enum Mention {
    /// In a role.
    Stands { at: u32, role: Role, stand: Stand },
    /// The path of a `disable`.
    Ends { path: Items<u32>, scope: u32 },
    /// The module of an instance.
    Instantiates { at: u32, scope: u32 },
}
