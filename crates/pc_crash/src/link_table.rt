//! The activities at each event, with the event at their other end.
ghost use Rattle.std.specs.Prelude.{◌≡◌, ◌<◌, ◌++◌, vec_len, IfOk, OnOk};
ghost use Rattle.pc_model.specs.Greatest.{places};
ghost use Rattle.pc_model.specs.Walk.{from_of, to_of};
ghost use Rattle.pc_net.specs.Networks.{events_from, events_to};
ghost use Rattle.pc_crash.specs.inside.Links.{AreLinked, IsLinkRow, begun_part, ended_part, link_row_at, links_of};

use pc_net::Net;
use std::alloc::{AllocError, Global};

/// An activity at an event, and the event at its other end.
#[derive(Clone, Copy)]
pub struct Link {
    pub activity: u32,
    pub other: u32,
}

/// The place of one event's links in the list of all: those of the activities that begin there from `begun` on, and
/// those of the activities that end there from `ended` up to `end`.
#[derive(Clone, Copy)]
pub(crate) struct LinkRow {
    pub(crate) begun: u32,
    pub(crate) ended: u32,
    pub(crate) end: u32,
}

/// The links of all events, one event after another.
pub(crate) struct LinkTable {
    pub(crate) rows: Vec<LinkRow>,
    pub(crate) links: Vec<Link>,
}

impl Drop for LinkTable {
    // Written by hand so that the proof of dropping a table is done once, here.
    fn drop(self) {
        let LinkTable {
            rows: _rows,
            links: _links,
        } = self;
    }
}

/// The activities at each event of a network, linked. Linear in events and activities.
pub(crate) fn linked(alloc: Global, net: &Net) -> Result<LinkTable, AllocError>
    ensures { IfOk result (λ table. AreLinked net.now.arcs net.now.events table.rows.items table.links.items) }
{
    let mut rows = Vec::with_capacity(alloc, net.events() as usize)?;
    let mut links = Vec::with_capacity(alloc, 2 * net.activities() as usize)?;
    for e in 0..net.events() {
        let begun = links.len() as u32;
        push_begun(&mut links, net, e)?;
        let ended = links.len() as u32;
        push_ended(&mut links, net, e)?;
        rows.push(LinkRow {
            begun,
            ended,
            end: links.len() as u32,
        })?;
    }
    Ok(LinkTable { rows, links })
}

/// Adds the activities that begin at an event.
fn push_begun(links: &mut Vec<Link>, net: &Net, e: u32) -> Result<(), AllocError>
    requires { e < net.now.events }
    ensures { OnOk result (links.new.items ≡ links.old.items ++ links_of (to_of net.now.arcs)
        (places e 0 (events_from net.now.arcs))) }
{
    for &a in net.out_arcs(e) {
        links.push(Link {
            activity: a,
            other: net.to(a),
        })?;
    }
    Ok(())
}

/// Adds the activities that end at an event.
fn push_ended(links: &mut Vec<Link>, net: &Net, e: u32) -> Result<(), AllocError>
    requires { e < net.now.events }
    ensures { OnOk result (links.new.items ≡ links.old.items ++ links_of (from_of net.now.arcs)
        (places e 0 (events_to net.now.arcs))) }
{
    for &a in net.in_arcs(e) {
        links.push(Link {
            activity: a,
            other: net.from(a),
        })?;
    }
    Ok(())
}

impl LinkTable {
    /// The activities that begin at an event.
    pub(crate) fn begun(&self, e: u32) -> &[Link]
        requires known { e < vec_len self.now.rows }
        requires row { IsLinkRow self.now.links.items (link_row_at self.now.rows.items e) }
        ensures { result.now ≡ begun_part self.now.links.items (link_row_at self.now.rows.items e) }
    {
        let row = self.rows[e as usize];
        &self.links[row.begun as usize..row.ended as usize]
    }

    /// The activities that end at an event.
    pub(crate) fn ended(&self, e: u32) -> &[Link]
        requires known { e < vec_len self.now.rows }
        requires row { IsLinkRow self.now.links.items (link_row_at self.now.rows.items e) }
        ensures { result.now ≡ ended_part self.now.links.items (link_row_at self.now.rows.items e) }
    {
        let row = self.rows[e as usize];
        &self.links[row.ended as usize..row.end as usize]
    }
}
