ghost use Rattle.std.specs.Prelude.{◌≡◌, ◌++◌, ◌∷◌, [], flat_map, slice_get, unwrap_or, length, List, false, cond, Some, None, IfOk, OnOk};
ghost use Rattle.std.specs.BTreeMap.{is_at};
ghost use Rattle.fp_reach.specs.Rings.{Tells, AreOnCycles, IsNumbered, Numbers, IsLinked, number_in, is_flagged, flagged};

use fp_base::{NoMemory, Row};
use fp_graph::chains_of;
use std::alloc::Global;
use std::collections::BTreeMap;

/// The number of each vertex, and for each number those to which its vertex leads.
#[derive(Drop)]
pub struct Numbered<K: Ord> {
    numbers: BTreeMap<K, u32>,
    rows: Vec<Row<u32>>,
}

fn count_of(rows: &[Row<u32>]) -> Result<u32, NoMemory>
    ensures { IfOk result (λ count. count ≡ length rows.now) }
{
    match u32::try_from(rows.len()) {
        Ok(count) => Ok(count),
        Err(_) => Err(NoMemory),
    }
}

fn push_empty(alloc: Global, rows: &mut Vec<Row<u32>>) -> Result<(), NoMemory>
    ensures { OnOk result (rows.new.items ≡ rows.old.items ++ [] ∷ []) }
{
    rows.push(Row::new(alloc))?;
    Ok(())
}

fn put<K: Ord + Copy + Drop>(
    numbers: &mut BTreeMap<K, u32>,
    vertex: K,
    number: u32,
) -> Result<(), NoMemory>
    ensures here { OnOk result (number_in K.cmp numbers.new vertex ≡ Some number) }
    ensures each { OnOk result ((other : K) → number_in K.cmp numbers.new other ≡ cond (is_at (K.cmp vertex) other) (Some number) (number_in K.cmp numbers.old other)) }
{
    numbers.insert(vertex, number)?;
    Ok(())
}

fn known<K: Ord + Copy + Drop>(numbers: &BTreeMap<K, u32>, vertex: K) -> Option<u32>
    ensures { result ≡ number_in K.cmp numbers.now vertex }
{
    numbers.get(&vertex).copied()
}

fn add_vertex<K: Ord + Copy + Drop>(
    alloc: Global,
    graph: &mut Numbered<K>,
    vertex: K,
) -> Result<u32, NoMemory>
    requires { number_in K.cmp graph.old.numbers vertex ≡ None }
    ensures { IfOk result (λ n. Numbers K.cmp vertex n graph.old.numbers graph.new.numbers graph.old.rows.items graph.new.rows.items) }
{
    let number = count_of(graph.rows.as_slice())?;
    put(&mut graph.numbers, vertex, number)?;
    push_empty(alloc, &mut graph.rows)?;
    Ok(number)
}

fn number<K: Ord + Copy + Drop>(
    alloc: Global,
    graph: &mut Numbered<K>,
    vertex: K,
) -> Result<u32, NoMemory>
    ensures { IfOk result (λ n. Numbers K.cmp vertex n graph.old.numbers graph.new.numbers graph.old.rows.items graph.new.rows.items) }
{
    match known(&graph.numbers, vertex) {
        Some(number) => Ok(number),
        None => add_vertex(alloc, graph, vertex),
    }
}

fn add_target(row: &mut Row<u32>, target: u32) -> Result<(), NoMemory>
    ensures { OnOk result (row.new ≡ row.old ++ target ∷ []) }
{
    row.push(target)
}

fn link(rows: &mut Vec<Row<u32>>, from: usize, to: u32) -> Result<(), NoMemory>
    ensures { OnOk result (IsLinked from to rows.old.items rows.new.items) }
{
    if from < rows.len() {
        add_target(&mut rows[from], to)
    } else {
        Ok(())
    }
}

fn add<K: Ord + Copy + Drop>(
    alloc: Global,
    graph: &mut Numbered<K>,
    edge: (K, K),
) -> Result<(), NoMemory>
    ensures { OnOk result (Tells K.cmp → (before : List (K × K)) → IsNumbered K.cmp before graph.old.numbers graph.old.rows.items
        → IsNumbered K.cmp (before ++ edge ∷ []) graph.new.numbers graph.new.rows.items) }
{
    let from = number(alloc, graph, edge.0)?;
    let to = number(alloc, graph, edge.1)?;
    link(&mut graph.rows, from as usize, to)
}

fn number_all<K: Ord + Copy + Drop>(
    alloc: Global,
    edges: &[(K, K)],
) -> Result<Numbered<K>, NoMemory>
    ensures { IfOk result (λ graph. Tells K.cmp → IsNumbered K.cmp edges.now graph.numbers graph.rows.items) }
{
    let mut graph = Numbered {
        numbers: BTreeMap::new(alloc),
        rows: Vec::new(alloc),
    };
    for edge in edges {
        add(alloc, &mut graph, *edge)?;
    }
    Ok(graph)
}

fn flag_at(flags: &[bool], number: usize) -> bool
    ensures { result ≡ unwrap_or (slice_get flags.now number) false }
{
    match flags.get(number) {
        Some(flag) => *flag,
        None => false,
    }
}

fn is_cyclic<K: Ord + Copy + Drop>(graph: &Numbered<K>, flags: &[bool], vertex: K) -> bool
    ensures { result ≡ is_flagged K.cmp graph.now.numbers flags.now vertex }
{
    match known(&graph.numbers, vertex) {
        Some(number) => flag_at(flags, number as usize),
        None => false,
    }
}

fn cyclic_targets<K: Ord + Copy + Drop>(
    alloc: Global,
    graph: &Numbered<K>,
    flags: &[bool],
    edges: &[(K, K)],
) -> Result<Vec<K>, NoMemory>
    ensures { IfOk result (λ found. found.items ≡ flat_map (flagged K.cmp graph.now.numbers flags.now) edges.now) }
{
    let mut found = Vec::new(alloc);
    for edge in edges {
        if is_cyclic(graph, flags, edge.1) {
            found.push(edge.1)?;
        }
    }
    Ok(found)
}

/// The vertices that lead to themselves, perhaps through others. In time that grows with the edges, times their logarithm.
pub fn on_cycles<K: Ord + Copy + Drop>(alloc: Global, edges: &[(K, K)]) -> Result<Vec<K>, NoMemory>
    ensures { IfOk result (λ found. Tells K.cmp → AreOnCycles edges.now found.items) }
{
    let graph = number_all(alloc, edges)?;
    let chained = chains_of(alloc, graph.rows.as_slice())?;
    cyclic_targets(alloc, &graph, chained.cyclic.as_slice(), edges)
}
