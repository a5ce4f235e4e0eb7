//! What a host acknowledges in a tick.
ghost use Rattle.std.specs.Prelude.{◌≡◌, ◌<◌, length, map, take, replicate, IfOk, is_some, unwrap_or, slice_index, [], None};
ghost use Rattle.std.specs.List.{list_any};
ghost use Rattle.nt_run.specs.Acknowledged.{silence, unacknowledged, cleared, acknowledged, reply_to, is_quiet};

use crate::MAX_ITEMS;
use arrayvec::ArrayVec;
use nt_core::Netlist;
use std::alloc::Global;
use std::marker::Model;
use xt_base::{Item, NoMemory};

/// The items of a reply.
type Reply = ArrayVec<Item, MAX_ITEMS>;

/// The requests that are acknowledged in a tick, each with the items of its reply.
///
/// Contracts see the process of each host, and for each process the items, if its request is acknowledged.
#[derive(Debug, Drop)]
pub struct Acks {
    processes: Vec<u32>,
    replies: Vec<Option<Reply>>,
}

impl Model for Acks {
    ghost use Rattle.std.specs.Prelude.{ℕ, ◌<◌, map, length, All};
    ghost use Rattle.std.specs.Option.{option_map};
    ghost use Rattle.nt_run.specs.Acknowledged.{Acknowledged};

    ghost Value = { Acknowledged };

    ghost view = { λ a. record { processes = a.processes.items; replies = map (option_map (λ r. r.items)) a.replies.items } };

    ghost invariant = { λ a. All (λ p. p < length a.replies.items) a.processes.items };
}

impl Acks {
    /// The hosts of the netlist, with nothing acknowledged.
    pub fn new(alloc: Global, netlist: &Netlist) -> Result<Acks, NoMemory>
        ensures { IfOk result (λ acks. acks ≡ unacknowledged netlist.now) }
    {
        Ok(Acks {
            processes: processes_of(alloc, netlist)?,
            replies: no_replies(alloc, netlist.processes)?,
        })
    }

    /// No host, and so nothing that could be acknowledged.
    pub(crate) fn none(alloc: Global) -> Acks
        ensures { result ≡ silence }
    {
        Acks {
            processes: Vec::new(alloc),
            replies: Vec::new(alloc),
        }
    }

    /// Nothing is acknowledged any more.
    pub fn clear(&mut self)
        ensures { self.new ≡ cleared self.old }
    {
        clear_all(&mut self.replies);
    }

    /// The request of the host at this place is acknowledged with these items.
    ///
    /// An item past the last pin is ignored, and a pin without an item is 0.
    pub fn set(&mut self, host: u32, items: &[Item])
        requires { host < length self.old.processes }
        ensures { self.new ≡ acknowledged self.old host items.now }
    {
        let process = self.processes[host as usize];
        self.replies[process as usize] = Some(reply_of(items));
    }
}

impl Acks {
    /// Whether nothing is acknowledged.
    pub(crate) fn is_quiet(&self) -> bool
        ensures { result ≡ is_quiet self.now }
    {
        !has_reply(&self.replies)
    }

    /// Whether the request of the process is acknowledged.
    pub(crate) fn is_acknowledged(&self, process: u32) -> bool
        ensures { result ≡ is_some (reply_to self.now process) }
    {
        match self.replies.get(process as usize) {
            Some(Some(_)) => true,
            _ => false,
        }
    }

    /// An item of the reply to the process; 0 where there is none.
    pub(crate) fn item(&self, process: u32, item: u32) -> Item
        ensures { result ≡ slice_index (unwrap_or (reply_to self.now process) []) item }
    {
        match self.replies.get(process as usize) {
            Some(Some(reply)) => reply.as_slice().get(item as usize).copied().unwrap_or(0),
            _ => 0,
        }
    }
}

/// The process of each host.
fn processes_of(alloc: Global, netlist: &Netlist) -> Result<Vec<u32>, NoMemory>
    ensures { IfOk result (λ v. v.items ≡ map (λ h. h.process) netlist.now.hosts) }
{
    let mut processes = Vec::new(alloc);
    for host in netlist.hosts.as_slice() {
        processes.push(host.process)?;
    }
    Ok(processes)
}

/// No reply to any of so many processes.
fn no_replies(alloc: Global, processes: u32) -> Result<Vec<Option<Reply>>, NoMemory>
    ensures { IfOk result (λ v. v.items ≡ replicate processes None) }
{
    let mut replies = Vec::new(alloc);
    for _process in 0..processes {
        replies.push(None)?;
    }
    Ok(replies)
}

/// Takes all replies away.
fn clear_all(replies: &mut [Option<Reply>])
    ensures { replies.new ≡ replicate (length replies.old) None }
{
    for reply in replies.iter_mut() {
        *reply = None;
    }
}

/// The items of a reply that have a pin.
fn reply_of(items: &[Item]) -> Reply
    ensures { result.items ≡ take MAX_ITEMS items.now }
{
    let mut reply = ArrayVec::new();
    for item in &items[..items.len().min(MAX_ITEMS)] {
        reply.push(*item);
    }
    reply
}

/// Whether there is a reply.
fn has_reply(replies: &[Option<Reply>]) -> bool
    ensures { result ≡ list_any is_some replies.now }
{
    replies.iter().any(|reply| reply.is_some())
}
