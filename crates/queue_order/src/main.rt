// The order in which the same few plans come out of both makes of queue, in each kind of cost.
#![tactic(auto)]

use cost::costs::Cost;
use cost::peak::Peak;
use cost::plans::plan_cost;
use cost::spend::Spend;
use cost::spend_then_moves::SpendThenMoves;
use heap::heaps::Heap;
use queue::batches::in_order;
use queue::entries::Entry;
use queue::queues::Queue;
use queue::scanned_row::ScannedRow;
use rows::refusals::Refusal;
use std::io;

// The prices of each plan's moves; the last one is the empty plan.
const PLANS: [&[u32]; 7] = [&[30, 10], &[40], &[20, 20], &[5, 35, 0], &[40], &[41], &[]];

// What the plans cost in this kind.
fn plan_costs<K: Cost>(costs: &mut [K]) -> Result<(), Refusal> {
    for (cost, prices) in costs.iter_mut().zip(PLANS) {
        *cost = plan_cost(prices)?;
    }
    Ok(())
}

// Prints each plan's number and amount as it comes out of the queue.
fn show_order<K: Cost, Q: Queue<K>>(rt: &HostRuntime, q: &mut Q, costs: &[K]) -> io::Result<()> {
    let mut numbers = [0u16; 7];
    let n = in_order(q, costs, &mut numbers);
    let capacity = q.capacity();
    print!(rt; " {n} of {capacity}:")?;
    for number in numbers.iter().take(n) {
        if let Some(cost) = costs.get(usize::from(*number)) {
            let amount = cost.amount();
            print!(rt; " {number} ({amount})")?;
        }
    }
    println!(rt)
}

// Shows both makes over the same memory, whatever it holds.
fn show_kind<K: Cost>(
    rt: &HostRuntime,
    kind: &str,
    costs: &mut [K],
    memory: &mut [Entry<K>],
) -> io::Result<()> {
    if let Err(refusal) = plan_costs(costs) {
        return println!(rt; "{kind}: {refusal}");
    }
    print!(rt; "{kind}, scanned row,")?;
    show_order(rt, &mut ScannedRow::new(memory), costs)?;
    print!(rt; "{kind}, heap,")?;
    show_order(rt, &mut Heap::new(memory), costs)
}

// Prints the bytes of a cost and of an entry in this kind, as told: `size_of` of a type parameter gets no proof.
fn show_sizes(rt: &HostRuntime, kind: &str, cost: usize, entry: usize) -> io::Result<()> {
    println!(rt; "{kind}, {cost} and {entry}")
}

// An entry of this cost, as it lies in memory before a queue is made.
fn stale<K: Cost>(cost: K) -> Entry<K> {
    Entry { cost, number: 9 }
}

// The arrays are made here, once for each kind: that an array of a type parameter fits memory is not proved.
fn main(rt: HostRuntime) -> io::Result<()> {
    show_sizes(&rt, "Spend", size_of::<Spend>(), size_of::<Entry<Spend>>())?;
    show_sizes(
        &rt,
        "SpendThenMoves",
        size_of::<SpendThenMoves>(),
        size_of::<Entry<SpendThenMoves>>(),
    )?;
    show_sizes(&rt, "Peak", size_of::<Peak>(), size_of::<Entry<Peak>>())?;
    let spend = Spend::nothing();
    show_kind(&rt, "Spend", &mut [spend; 7], &mut [stale(spend); 7])?;
    let both = SpendThenMoves::nothing();
    show_kind(&rt, "SpendThenMoves", &mut [both; 7], &mut [stale(both); 7])?;
    let peak = Peak::nothing();
    show_kind(&rt, "Peak", &mut [peak; 7], &mut [stale(peak); 5])
}
