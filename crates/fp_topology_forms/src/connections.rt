ghost use Rattle.std.specs.Prelude.{flat_map, IfOk};
ghost use Rattle.fp_meaning.specs.Layout.{connection_items};
ghost use Rattle.fp_meaning.specs.Names.{Path};
ghost use Rattle.fp_tree.specs.declared.source.Source.{Source};
ghost use Rattle.fp_type_forms.specs.Resolved.{Takes};
ghost use Rattle.fp_type_forms.specs.Written.{AllAt};
ghost use Rattle.fp_topology_forms.specs.Taken.{AreRanks};
ghost use Rattle.fp_topology_forms.specs.Written.{ConnectionIs};

use crate::ranks::Ranks;
use crate::uses::port_use_taken;
use fp_base::{NoMemory, Row, Value};
use fp_component_forms::with_one;
use fp_tree::Connection;
use fp_type_forms::Resolution;
use fp_written_parts::WrittenConnection;
use std::alloc::Global;

/// Connections in a row; what stands in them is passed.
pub fn connections_taken(
    alloc: Global,
    connections: &[Connection],
    ranks: &Ranks,
    resolutions: &[Resolution],
    marks: &[Option<Value>],
    next: &mut usize,
) -> Result<Row<WrittenConnection>, NoMemory>
    ensures { IfOk result (λ row. (source : Source) (scope : Path) → AreRanks source ranks.now → Takes source marks.now resolutions.now (flat_map (connection_items scope) connections.now) next.old next.new (AllAt (λ position. ConnectionIs source scope) 0 connections.now row)) }
{
    let mut row = Row::new(alloc);
    for connection in connections {
        let one = connection_taken(alloc, connection, ranks, resolutions, marks, next)?;
        row = with_one(row, one)?;
    }
    Ok(row)
}

fn connection_taken(
    alloc: Global,
    connection: &Connection,
    ranks: &Ranks,
    resolutions: &[Resolution],
    marks: &[Option<Value>],
    next: &mut usize,
) -> Result<WrittenConnection, NoMemory>
    ensures { IfOk result (λ one. (source : Source) (scope : Path) → AreRanks source ranks.now → Takes source marks.now resolutions.now (connection_items scope connection.now) next.old next.new (ConnectionIs source scope connection.now one)) }
{
    let from = port_use_taken(alloc, &connection.from, ranks, resolutions, marks, next)?;
    let to = port_use_taken(alloc, &connection.to, ranks, resolutions, marks, next)?;
    Ok(WrittenConnection {
        at: connection.at.first,
        unmatched: connection.unmatched,
        from,
        to,
    })
}
