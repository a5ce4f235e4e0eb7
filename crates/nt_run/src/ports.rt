//! The output ports, over the values of the nodes.
ghost use Rattle.std.specs.Prelude.{◌≡◌, ◌+◌, ◌<◌, IfOk, length, slice_get, slice_index};
ghost use Rattle.nt_core.specs.Conditions.{port_widths};
ghost use Rattle.nt_core.specs.Fitting.{value_widths};
ghost use Rattle.nt_core.specs.Forms.{widths};
ghost use Rattle.nt_core.specs.Ports.{port, edge_up, request_port, request_up, function_number, argument, argument_count};
ghost use Rattle.nt_run.specs.Kept.{ArePorts};
ghost use Rattle.nt_run.specs.Ticks.{has_request, has_unanswered};

use crate::acks::Acks;
use nt_core::Netlist;
use std::alloc::Global;
use xt_base::NoMemory;
use xt_bits::Bits;

/// The place of each host's first output port, its request.
pub(crate) fn request_ports(alloc: Global, netlist: &Netlist) -> Result<Vec<usize>, NoMemory>
    ensures { IfOk result (λ v. ArePorts netlist.now v.items) }
{
    let mut ports = Vec::new(alloc);
    let mut port = 1 + netlist.outputs.len();
    for host in netlist.hosts.as_slice() {
        ports.push(port)?;
        port += 2 + host.args.len();
    }
    Ok(ports)
}

/// The value on the output port at a place.
pub(crate) fn port(netlist: &Netlist, values: &[Bits], place: usize) -> Bits
    requires values { value_widths values.now ≡ widths netlist.now.nodes }
    requires place { place < length (port_widths netlist.now) }
    ensures value { result ≡ port netlist.now values.now place }
    ensures width { result.width ≡ slice_index (port_widths netlist.now) place }
{
    values[netlist.drives[place] as usize]
}

/// Whether `xtc_edge` is up.
pub(crate) fn is_edge(netlist: &Netlist, values: &[Bits]) -> bool
    requires { value_widths values.now ≡ widths netlist.now.nodes }
    ensures { result ≡ edge_up netlist.now values.now }
{
    port(netlist, values, 0).any()
}

/// The value on an output port of the host at a place, by its number among the host's: its request is 0.
fn host_port(netlist: &Netlist, values: &[Bits], ports: &[usize], host: usize, i: usize) -> Bits
    requires values { value_widths values.now ≡ widths netlist.now.nodes }
    requires ports { ArePorts netlist.now ports.now }
    requires host { host < length netlist.now.hosts }
    requires port { i < 2 + argument_count (slice_get netlist.now.hosts host) }
    ensures value { result ≡ port netlist.now values.now (request_port netlist.now host + i) }
    ensures width { result.width ≡ slice_index (port_widths netlist.now) (request_port netlist.now host + i) }
{
    port(netlist, values, ports[host] + i)
}

/// Whether the request of the host at a place is up.
pub(crate) fn is_asking(netlist: &Netlist, values: &[Bits], ports: &[usize], host: usize) -> bool
    requires values { value_widths values.now ≡ widths netlist.now.nodes }
    requires ports { ArePorts netlist.now ports.now }
    requires host { host < length netlist.now.hosts }
    ensures { result ≡ request_up netlist.now values.now host }
{
    host_port(netlist, values, ports, host, 0).any()
}

/// The number of the function that the host at a place asks for.
pub(crate) fn function_number(
    netlist: &Netlist,
    values: &[Bits],
    ports: &[usize],
    host: usize,
) -> u8
    requires values { value_widths values.now ≡ widths netlist.now.nodes }
    requires ports { ArePorts netlist.now ports.now }
    requires host { host < length netlist.now.hosts }
    ensures { result ≡ function_number netlist.now values.now host }
{
    host_port(netlist, values, ports, host, 1).value() as u8
}

/// The value on an argument pin of the host at a place.
pub(crate) fn argument(
    netlist: &Netlist,
    values: &[Bits],
    ports: &[usize],
    host: usize,
    i: usize,
) -> Bits
    requires values { value_widths values.now ≡ widths netlist.now.nodes }
    requires ports { ArePorts netlist.now ports.now }
    requires host { host < length netlist.now.hosts }
    requires argument { i < argument_count (slice_get netlist.now.hosts host) }
    ensures { result ≡ argument netlist.now values.now host i }
{
    host_port(netlist, values, ports, host, 2 + i)
}

/// Whether some host's request is up.
pub(crate) fn has_request(netlist: &Netlist, values: &[Bits], ports: &[usize]) -> bool
    requires values { value_widths values.now ≡ widths netlist.now.nodes }
    requires ports { ArePorts netlist.now ports.now }
    ensures { result ≡ has_request netlist.now values.now }
{
    for host in 0..ports.len() {
        if is_asking(netlist, values, ports, host) {
            return true;
        }
    }
    false
}

/// Whether some host's request is up and isn't acknowledged.
pub(crate) fn has_unanswered(
    netlist: &Netlist,
    values: &[Bits],
    ports: &[usize],
    acks: &Acks,
) -> bool
    requires values { value_widths values.now ≡ widths netlist.now.nodes }
    requires ports { ArePorts netlist.now ports.now }
    ensures { result ≡ has_unanswered netlist.now values.now acks.now }
{
    for (i, host) in netlist.hosts.as_slice().iter().enumerate() {
        if is_asking(netlist, values, ports, i) && !acks.is_acknowledged(host.process) {
            return true;
        }
    }
    false
}
