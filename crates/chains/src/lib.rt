#![tactic(auto)]

ghost use Rattle.std.specs.Prelude.{◌≡◌, ℕ, ◌<◌, ◌≤◌, ◌&&◌, List, ◌++◌, length, drop, MatchBool, MatchOption, nat_lt, slice_index_or};
ghost use Rattle.steps.specs.declared.tables.Record.{Record};
ghost use Rattle.chains.specs.Chains.{Link, Chain, Broken, Reading, NeverBoth, OneChain, FewMoves, OneReading};

use rows::refusals::Refusal;
use steps::tables::Record;

// The parent of a node, and its move.
fn link_at<K>(records: &[Record<K>], node: u16) -> (u16, u16)
    requires { node < length records.now }
    ensures parent { (d : Record K) → result.0 ≡ (slice_index_or records.now node d).parent }
    ensures step { (d : Record K) → result.1 ≡ (slice_index_or records.now node d).step }
{
    let record = &records[usize::from(node)];
    (record.parent, record.step)
}

// Whether the parent is below its node, and the move is one of so many.
fn is_link(node: u16, parent: u16, step: u16, moves: usize) -> bool
    ensures { result ≡ nat_lt parent node && nat_lt step moves }
{
    parent < node && usize::from(step) < moves
}

// Whether a chain ends here: node 0's own move is never read.
fn is_root(node: u16) -> bool
    ensures { MatchBool result (node ≡ 0) (0 < node) }
{
    node == 0
}

// The parent of a node, not node 0, if its record can be read.
fn follow<K>(records: &[Record<K>], node: u16, moves: usize) -> Option<u16>
    requires { 0 < node }
    ensures { MatchOption result ((x : Record K) → Link records.now moves node x → ⊥) (λ p. (x : Record K) × Link records.now moves node x × (p ≡ x.parent)) }
{
    if usize::from(node) >= records.len() {
        return None;
    }
    let (parent, step) = link_at(records, node);
    if is_link(node, parent, step, moves) {
        Some(parent)
    } else {
        None
    }
}

// How many moves the chain of a node has, or nothing if it is broken.
pub fn chain_length<K>(records: &[Record<K>], node: u16, moves: usize) -> Option<usize>
    ensures { MatchOption result (Broken records.now moves node) (λ count. (ns : List ℕ) × Chain records.now moves node ns × (count ≡ length ns)) }
{
    // A while and a count: the parents stand in no slice or range that could be gone through.
    let mut at = node;
    let mut count: usize = 0;
    while !is_root(at) {
        at = follow(records, at, moves)?;
        count += 1;
    }
    Some(count)
}

// Whether the buffer has so many cells.
fn has_cells(out: &[u16], count: usize) -> bool
    ensures { MatchBool result (count ≤ length out.now) (length out.now < count) }
{
    count <= out.len()
}

// Writes the moves of a node's chain, which is not broken and not longer than the buffer, into the first cells.
fn write_chain<K>(records: &[Record<K>], node: u16, out: &mut [u16])
    requires { (moves : ℕ) × (ns : List ℕ) × Chain records.now moves node ns × (length ns ≤ length out.old) }
    ensures { (moves : ℕ) (ns : List ℕ) → Chain records.now moves node ns → length ns ≤ length out.old → out.new ≡ ns ++ drop (length ns) out.old }
{
    let mut at = node;
    for cell in out.iter_mut() {
        if is_root(at) {
            return;
        }
        let (parent, step) = link_at(records, at);
        *cell = step;
        at = parent;
    }
}

// Holds the proofs of what holds of all chains.
fn chains_hold<K>(records: &[Record<K>], moves: usize)
    ensures apart { NeverBoth records.now moves }
    ensures one { OneChain records.now moves }
    ensures few { FewMoves records.now moves }
    ensures same { OneReading records.now moves }
{}

// Reads the moves of a node's chain: the node's own, its parent's and so on along the parents to node 0, whose own is left out.
// Refused Torn if on the way a node, not node 0, is not stored, its parent is not below it or its move is not one of so many; then
// Short buffer if there are more moves than cells. A refusal writes nothing.
pub fn read_chain<K>(
    records: &[Record<K>],
    node: u16,
    moves: usize,
    out: &mut [u16],
) -> Result<usize, Refusal>
    ensures read { Reading records.now moves node out.old result out.new }
    ensures apart { NeverBoth records.now moves }
    ensures one { OneChain records.now moves }
    ensures few { FewMoves records.now moves }
    ensures same { OneReading records.now moves }
{
    chains_hold(records, moves);
    let Some(count) = chain_length(records, node, moves) else {
        return Err(Refusal::Torn);
    };
    if !has_cells(out, count) {
        return Err(Refusal::ShortBuffer);
    }
    write_chain(records, node, out);
    Ok(count)
}
