//! The leading words of parameters, ports and formals.
ghost use Rattle.std.specs.Prelude.{◌≡◌, option_copied};
ghost use Rattle.vl_tree.specs.Words.{own_or, ptype_signed, ptype_range, ptype_integer, dir_direction, dir_reg, dir_signed, dir_range, fdir_direction, fdir_signed, fdir_range, fdir_integer};

use crate::modules::{Dir, Direction, Pdecl, Port, Ptype, Range};
use crate::routines::{Fdir, Formal};

impl Pdecl {
    /// The type that holds at the parameter: its own, or else that of the parameter before it.
    pub fn words_or<'a>(&'a self, before: Option<&'a Ptype>) -> Option<&'a Ptype>
        ensures { option_copied result ≡ own_or self.now.ptype (option_copied before.entry) }
    {
        match &self.ptype {
            Some(own) => Some(own),
            None => before,
        }
    }
}

impl Port {
    /// The words that hold at the port: its own, or else those of the port before it.
    pub fn words_or<'a>(&'a self, before: Option<&'a Dir>) -> Option<&'a Dir>
        ensures { option_copied result ≡ own_or self.now.dir (option_copied before.entry) }
    {
        match &self.dir {
            Some(own) => Some(own),
            None => before,
        }
    }
}

impl Formal {
    /// The words that hold at the formal: its own, or else those of the formal before it.
    pub fn words_or<'a>(&'a self, before: Option<&'a Fdir>) -> Option<&'a Fdir>
        ensures { option_copied result ≡ own_or self.now.fdir (option_copied before.entry) }
    {
        match &self.fdir {
            Some(own) => Some(own),
            None => before,
        }
    }
}

impl Ptype {
    /// Whether it is signed, as an `integer` is.
    pub fn is_signed(&self) -> bool
        ensures { result ≡ ptype_signed self.now }
    {
        match self {
            Ptype::Vector { signed, .. } => *signed,
            Ptype::Integer { .. } => true,
        }
    }

    /// Whether it is `integer`, which has 32 bits.
    pub fn is_integer(&self) -> bool
        ensures { result ≡ ptype_integer self.now }
    {
        matches!(self, Ptype::Integer { .. })
    }

    /// Its range.
    pub fn range(&self) -> Option<&Range>
        ensures { option_copied result ≡ ptype_range self.now }
    {
        match self {
            Ptype::Vector { range, .. } => range.as_ref(),
            Ptype::Integer { .. } => None,
        }
    }
}

impl Dir {
    /// `input` or `output`
    pub fn direction(&self) -> Direction
        ensures { result ≡ dir_direction self.now }
    {
        match self {
            Dir::Net { direction, .. } => *direction,
            Dir::Reg { .. } => Direction::Output,
        }
    }

    /// Whether it is `output reg`.
    pub fn is_reg(&self) -> bool
        ensures { result ≡ dir_reg self.now }
    {
        matches!(self, Dir::Reg { .. })
    }

    /// Whether it is signed.
    pub fn is_signed(&self) -> bool
        ensures { result ≡ dir_signed self.now }
    {
        match self {
            Dir::Net { signed, .. } | Dir::Reg { signed, .. } => *signed,
        }
    }

    /// Its range.
    pub fn range(&self) -> Option<&Range>
        ensures { option_copied result ≡ dir_range self.now }
    {
        match self {
            Dir::Net { range, .. } | Dir::Reg { range, .. } => range.as_ref(),
        }
    }
}

impl Fdir {
    /// `input` or `output`
    pub fn direction(&self) -> Direction
        ensures { result ≡ fdir_direction self.now }
    {
        match self {
            Fdir::Vector { direction, .. } | Fdir::Integer { direction, .. } => *direction,
        }
    }

    /// Whether it is signed, as an `integer` is.
    pub fn is_signed(&self) -> bool
        ensures { result ≡ fdir_signed self.now }
    {
        match self {
            Fdir::Vector { signed, .. } => *signed,
            Fdir::Integer { .. } => true,
        }
    }

    /// Whether it is `integer`, which has 32 bits.
    pub fn is_integer(&self) -> bool
        ensures { result ≡ fdir_integer self.now }
    {
        matches!(self, Fdir::Integer { .. })
    }

    /// Its range.
    pub fn range(&self) -> Option<&Range>
        ensures { option_copied result ≡ fdir_range self.now }
    {
        match self {
            Fdir::Vector { range, .. } => range.as_ref(),
            Fdir::Integer { .. } => None,
        }
    }
}
