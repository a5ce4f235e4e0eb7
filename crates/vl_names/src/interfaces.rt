//! What instances of a module reach.
ghost use Rattle.std.specs.Prelude.{◌≡◌, ◌++◌, OnOk, IfOk};
ghost use Rattle.std.specs.List.{filter};
ghost use Rattle.vl_names.specs.Declarations.{module_declares};
ghost use Rattle.vl_names.specs.Interfaces.{is_port, is_parameter, interface_of};

use crate::declare::module_declarations;
use crate::kinds::{Declaration, Interface, Side};
use sqlite_items::Items;
use std::alloc::Global;
use vl_tree::Module;
use xt_base::NoMemory;

fn is_port(side: Side) -> bool
    ensures { result ≡ is_port side }
{
    match side {
        Side::Input | Side::Output => true,
        Side::Inner | Side::Parameter => false,
    }
}

fn is_parameter(side: Side) -> bool
    ensures { result ≡ is_parameter side }
{
    match side {
        Side::Parameter => true,
        Side::Inner | Side::Input | Side::Output => false,
    }
}

/// The ports among declarations.
fn ports(alloc: Global, all: &[Declaration]) -> Result<Items<Declaration>, NoMemory>
    ensures { IfOk result (λ found. found ≡ filter (λ d. is_port d.side) all.now) }
{
    let mut found = Items::new(alloc);
    for declaration in all {
        if is_port(declaration.side) {
            found.push(*declaration)?;
        }
    }
    Ok(found)
}

/// The parameters among declarations that an override reaches.
fn parameters(alloc: Global, all: &[Declaration]) -> Result<Items<Declaration>, NoMemory>
    ensures { IfOk result (λ found. found ≡ filter (λ d. is_parameter d.side) all.now) }
{
    let mut found = Items::new(alloc);
    for declaration in all {
        if is_parameter(declaration.side) {
            found.push(*declaration)?;
        }
    }
    Ok(found)
}

/// What instances of a module reach.
pub fn interface(alloc: Global, module: &Module) -> Result<Interface, NoMemory>
    ensures { IfOk result (λ found. found ≡ interface_of «module».now) }
{
    let all = module_declarations(alloc, module)?;
    Ok(Interface {
        name: module.name,
        ports: ports(alloc, &all)?,
        parameters: parameters(alloc, &all)?,
    })
}
