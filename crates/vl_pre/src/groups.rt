//! Conditional compilation: the groups that are open.
ghost use Rattle.std.specs.Prelude.{◌≡◌, ◌≤◌, Some, None, true, false, OnOk, IfErr, is_some, reverse, IsTrue};
ghost use Rattle.vl_pre.specs.Cursors.{left, IsWithin};
ghost use Rattle.vl_pre.specs.Directives.{name_behind};
ghost use Rattle.vl_pre.specs.Groups.{is_read, opened, operand_at, if_turn, elsif_turn, elsif_groups, else_groups, endif_groups, is_conditional, turned, bare};
ghost use Rattle.vl_pre.specs.Tables.{table_of};
ghost use Rattle.vl_pre.specs.Turning.{open_groups, Leaves, IsText};
ghost use Rattle.vl_pre.specs.Gives.{Gives, Tells};

use crate::directives::{Directive, name_behind};
use crate::pieces::Cursor;
use crate::stopped::Stopped;
use crate::table::Table;

/// A group that is open.
#[derive(Clone, Copy, Debug)]
pub(crate) struct Group {
    /// The stretch of its first directive.
    pub(crate) stretch: u32,
    /// The line of its first directive.
    pub(crate) line: u32,
    /// Whether what follows is read.
    pub(crate) reads: bool,
    /// Whether one of its parts was read, or none may be.
    pub(crate) taken: bool,
    /// Whether `else` came.
    pub(crate) last: bool,
}

/// Whether what follows is read.
pub(crate) fn is_read(groups: &[Group]) -> bool
    ensures { result ≡ is_read (open_groups groups.now) }
{
    match groups.last() {
        Some(group) => group.reads,
        None => true,
    }
}

/// Opens a group on a condition.
fn open(groups: &mut Vec<Group>, stretch: u32, line: u32, holds: bool) -> Result<(), Stopped>
    ensures ok { OnOk result (open_groups groups.new.items ≡ opened stretch line holds (open_groups groups.old.items)) }
    ensures err { IfErr result (λ stop. stop ≡ Stopped.Memory) }
{
    let outer = is_read(groups);
    groups.push(Group {
        stretch,
        line,
        reads: outer && holds,
        taken: !outer || holds,
        last: false,
    })?;
    Ok(())
}

/// The next part of the innermost group, on a condition.
fn next_part(groups: &mut Vec<Group>, line: u32, holds: bool) -> Result<(), Stopped>
    ensures { Gives (λ _. open_groups groups.new.items) result (elsif_groups line holds (open_groups groups.old.items)) }
{
    match groups.pop() {
        Some(group) if !group.last => {
            groups.push(Group {
                reads: !group.taken && holds,
                taken: group.taken || holds,
                ..group
            })?;
            Ok(())
        }
        _ => Err(Stopped::Broken { rule: 11, line }),
    }
}

/// The last part of the innermost group.
fn last_part(groups: &mut Vec<Group>, line: u32) -> Result<(), Stopped>
    ensures { Gives (λ _. open_groups groups.new.items) result (else_groups line (open_groups groups.old.items)) }
{
    match groups.pop() {
        Some(group) if !group.last => {
            groups.push(Group {
                reads: !group.taken,
                taken: true,
                last: true,
                ..group
            })?;
            Ok(())
        }
        _ => Err(Stopped::Broken { rule: 11, line }),
    }
}

/// The end of the innermost group.
fn close(groups: &mut Vec<Group>, line: u32) -> Result<(), Stopped>
    ensures { Gives (λ _. open_groups groups.new.items) result (endif_groups line (open_groups groups.old.items)) }
{
    match groups.pop() {
        Some(_) => Ok(()),
        None => Err(Stopped::Broken { rule: 11, line }),
    }
}

/// The name that must stand behind a directive.
pub(crate) fn operand<'a>(
    text: &'a [u8],
    cursor: &mut Cursor,
    line: u32,
) -> Result<&'a [u8], Stopped>
    requires { IsWithin text.now cursor.old }
    ensures within { IsWithin text.now cursor.new }
    ensures forward { cursor.old.at ≤ cursor.new.at }
    ensures exact { Tells (λ name. IsText name.now (left text.now cursor.old) (left text.now cursor.new)) result (operand_at line (name_behind (left text.now cursor.old))) }
{
    match name_behind(text, cursor) {
        Some(name) => Ok(name),
        None => Err(Stopped::Broken { rule: 11, line }),
    }
}

/// `ifdef`, where a name is wanted, and `ifndef`, where it isn't.
fn if_turn(
    table: &Table,
    groups: &mut Vec<Group>,
    wanted: bool,
    text: &[u8],
    cursor: &mut Cursor,
    stretch: u32,
    line: u32,
) -> Result<(), Stopped>
    requires { IsWithin text.now cursor.old }
    ensures within { IsWithin text.now cursor.new }
    ensures forward { cursor.old.at ≤ cursor.new.at }
    ensures exact { Tells (λ _. Leaves groups.new.items (left text.now cursor.old) (left text.now cursor.new)) result
        (if_turn wanted (λ name. is_some (table_of table.now name)) stretch line (left text.now cursor.old) (open_groups groups.old.items)) }
{
    let name = operand(text, cursor, line)?;
    let holds = table.has(name) == wanted;
    open(groups, stretch, line, holds)
}

/// `elsif`.
fn elsif_turn(
    table: &Table,
    groups: &mut Vec<Group>,
    text: &[u8],
    cursor: &mut Cursor,
    line: u32,
) -> Result<(), Stopped>
    requires { IsWithin text.now cursor.old }
    ensures within { IsWithin text.now cursor.new }
    ensures forward { cursor.old.at ≤ cursor.new.at }
    ensures exact { Tells (λ _. Leaves groups.new.items (left text.now cursor.old) (left text.now cursor.new)) result
        (elsif_turn (λ name. is_some (table_of table.now name)) line (left text.now cursor.old) (open_groups groups.old.items)) }
{
    let name = operand(text, cursor, line)?;
    next_part(groups, line, table.has(name))
}

/// What a conditional directive does.
pub(crate) fn turn(
    table: &Table,
    groups: &mut Vec<Group>,
    directive: Directive,
    text: &[u8],
    cursor: &mut Cursor,
    stretch: u32,
    line: u32,
) -> Result<(), Stopped>
    requires { IsWithin text.now cursor.old }
    ensures within { IsWithin text.now cursor.new }
    ensures forward { cursor.old.at ≤ cursor.new.at }
    ensures exact { Tells (λ _. Leaves groups.new.items (left text.now cursor.old) (left text.now cursor.new)) result
        (turned directive (λ name. is_some (table_of table.now name)) stretch line (left text.now cursor.old) (open_groups groups.old.items)) }
{
    match directive {
        Directive::Ifdef => if_turn(table, groups, true, text, cursor, stretch, line),
        Directive::Ifndef => if_turn(table, groups, false, text, cursor, stretch, line),
        Directive::Elsif => elsif_turn(table, groups, text, cursor, line),
        Directive::Else => last_part(groups, line),
        Directive::Endif => close(groups, line),
        Directive::Define
        | Directive::Undef
        | Directive::Include
        | Directive::Timescale
        | Directive::DefaultNettype
        | Directive::Bare => Err(Stopped::Broken { rule: 11, line }),
    }
}
