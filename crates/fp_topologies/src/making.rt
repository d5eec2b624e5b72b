ghost use Rattle.std.specs.Prelude.{◌≡◌, [], ◌++◌, cond, filter, filter_map, flat_map, option_to_list, None, false, IfOk, OnOk};
ghost use Rattle.fp_topologies.specs.Patterns.{is_target, join_at, joined, joined_by, leaves, links_by, pattern_links};

use crate::index::PortIndex;
use crate::sorts::{Join, JoinAt, is_health, joins_of};
use crate::written::push_some;
use fp_base::{NoMemory, Place, Row};
use fp_tables::Link;
use fp_written_parts::{UsedInstance, WrittenPattern};
use std::alloc::Global;

impl<'a> PortIndex<'a> {
    /// The connections that a pattern stands for, in a topology that holds these instances: target by target, in the order of what it joins.
    pub fn pattern_links(
        &self,
        alloc: Global,
        held: &[u32],
        pattern: &WrittenPattern,
    ) -> Result<Row<Link>, NoMemory>
        ensures { IfOk result (λ links. links ≡ pattern_links self.now.ports self.now.components self.now.instances held.now pattern.now) }
    {
        let joins = self.joins_at(alloc, joins_of(pattern.kind), pattern.of.instance)?;
        match &pattern.targets {
            Some(targets) => {
                self.listed_links(alloc, pattern, joins.as_slice(), targets.as_slice())
            }
            None => self.unlisted_links(alloc, pattern, joins.as_slice(), held),
        }
    }

    fn joins_at(
        &self,
        alloc: Global,
        joins: &[Join],
        instance: u32,
    ) -> Result<Row<JoinAt>, NoMemory>
        ensures { IfOk result (λ there. there ≡ filter_map (join_at self.now.ports self.now.components self.now.instances instance) joins.now) }
    {
        let mut there = Row::new(alloc);
        for join in joins {
            push_join(&mut there, self.join_at(*join, instance))?;
        }
        Ok(there)
    }

    fn join_at(&self, join: Join, instance: u32) -> Option<JoinAt>
        ensures { result ≡ join_at self.now.ports self.now.components self.now.instances instance join }
    {
        match self.only_port(join.one(), instance) {
            Some(port) => Some(JoinAt { join, port }),
            None => None,
        }
    }

    fn listed_links(
        &self,
        alloc: Global,
        pattern: &WrittenPattern,
        joins: &[JoinAt],
        targets: &[UsedInstance],
    ) -> Result<Row<Link>, NoMemory>
        ensures { IfOk result (λ links. links ≡ flat_map (λ (u : UsedInstance). links_by self.now.ports self.now.components self.now.instances pattern.now joins.now u.instance) targets.now) }
    {
        let mut links = Row::new(alloc);
        for target in targets {
            self.push_joined(&mut links, pattern, joins, target.instance)?;
        }
        Ok(links)
    }

    fn unlisted_links(
        &self,
        alloc: Global,
        pattern: &WrittenPattern,
        joins: &[JoinAt],
        held: &[u32],
    ) -> Result<Row<Link>, NoMemory>
        ensures { IfOk result (λ links. links ≡ flat_map (links_by self.now.ports self.now.components self.now.instances pattern.now joins.now) (filter (is_target self.now.ports self.now.components self.now.instances pattern.now) held.now)) }
    {
        let mut links = Row::new(alloc);
        for target in held {
            self.push_target(&mut links, pattern, joins, *target)?;
        }
        Ok(links)
    }

    fn push_target(
        &self,
        links: &mut Row<Link>,
        pattern: &WrittenPattern,
        joins: &[JoinAt],
        target: u32,
    ) -> Result<(), NoMemory>
        ensures { OnOk result (links.new ≡ links.old ++ cond (is_target self.now.ports self.now.components self.now.instances pattern.now target) (links_by self.now.ports self.now.components self.now.instances pattern.now joins.now target) []) }
    {
        if self.is_target(pattern, target) {
            self.push_joined(links, pattern, joins, target)?;
            Ok(())
        } else {
            Ok(())
        }
    }

    fn is_target(&self, pattern: &WrittenPattern, instance: u32) -> bool
        ensures { result ≡ is_target self.now.ports self.now.components self.now.instances pattern.now instance }
    {
        let suits = self.suits(pattern.kind, instance);
        let is_itself = is_health(pattern.kind) & (instance == pattern.of.instance);
        suits & !is_itself
    }

    fn push_joined(
        &self,
        links: &mut Row<Link>,
        pattern: &WrittenPattern,
        joins: &[JoinAt],
        target: u32,
    ) -> Result<(), NoMemory>
        ensures { OnOk result (links.new ≡ links.old ++ links_by self.now.ports self.now.components self.now.instances pattern.now joins.now target) }
    {
        for join in joins {
            push_some(links, self.joined_by(pattern, target, *join))?;
        }
        Ok(())
    }

    fn joined_by(&self, pattern: &WrittenPattern, target: u32, join: JoinAt) -> Option<Link>
        ensures { result ≡ joined_by self.now.ports self.now.components self.now.instances pattern.now target join }
    {
        let other_port = self.only_port(join.join.other(), target)?;
        Some(joined(pattern, join, target, other_port))
    }
}

fn push_join(joins: &mut Row<JoinAt>, join: Option<JoinAt>) -> Result<(), NoMemory>
    ensures { OnOk result (joins.new ≡ joins.old ++ option_to_list join) }
{
    match join {
        Some(join) => {
            joins.push(join)?;
            Ok(())
        }
        None => Ok(()),
    }
}

fn joined(pattern: &WrittenPattern, join: JoinAt, target: u32, other_port: u32) -> Link
    ensures { result ≡ joined pattern.now.at (leaves join.join) pattern.now.of.instance join.port target other_port }
{
    if join.join.leaves() {
        link(
            pattern.at,
            pattern.of.instance,
            join.port,
            target,
            other_port,
        )
    } else {
        link(
            pattern.at,
            target,
            other_port,
            pattern.of.instance,
            join.port,
        )
    }
}

fn link(at: Place, from: u32, from_port: u32, to: u32, to_port: u32) -> Link
    ensures { result ≡ record { from = from; from_port = from_port; from_number = None; to = to; to_port = to_port; to_number = None; unmatched = false; at = at } }
{
    Link {
        from,
        from_port,
        from_number: None,
        to,
        to_port,
        to_number: None,
        unmatched: false,
        at,
    }
}
