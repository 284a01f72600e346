ghost use Rattle.rhythm_base.specs.Readable.{IsReadable};
ghost use Rattle.std.specs.Prelude.{◌≡◌, ◌≤◌, All, IfOk};

use crate::bars::{bar_of, chords_of};
use crate::grammars::{USUAL, read};
use bar_pool::{Order, Rooms, build_cells};
use grammar_plan::Plan;
use least_cost::{BarTable, Steps, build_cell};
use rhythm_base::{BarInput, Grammar, Shape, Tag};
use rhythm_ports::{Gate, Means, OpenGate};
use std::alloc::Global;
use std::sync::atomic::{AtomicBool, AtomicU64, Ordering};
use std::test::Fail;

/// What the steps of these builds are counted for.
#[derive(Clone, Copy)]
struct ByWorkers;

impl Tag for ByWorkers {}

/// A bar with a chord at this tick and another one after it.
fn bar(alloc: Global, grammar: &Grammar, onset: u64, pin: Option<Shape>) -> Result<BarInput, Fail>
    requires readable { IsReadable grammar.now }
    ensures { IfOk result (λ b. b.resolution ≡ grammar.now.resolution) }
{
    if onset > 1720 {
        return Err(Fail::new("a late chord"));
    }
    let chords = chords_of(alloc, &[(onset, onset + 100), (onset + 150, 1920)])?;
    match bar_of(grammar, chords, onset / 2, pin) {
        Some(bar) => Ok(bar),
        None => Err(Fail::new("no bar")),
    }
}

/// So many bars, each with a chord at another tick.
fn bars(alloc: Global, grammar: &Grammar, count: u64) -> Result<Vec<BarInput>, Fail>
    requires { IsReadable grammar.now }
    ensures { IfOk result (λ v. All (λ b. b.resolution ≡ grammar.now.resolution) v.items) }
{
    let mut bars = Vec::new(alloc);
    'bars: for number in 0..count {
        bars.push(bar(alloc, grammar, number.saturating_mul(13), None)?)?;
    }
    Ok(bars)
}

/// Holds one number until fifteen others have passed, for at most 100,000,000 turns.
#[derive(Drop)]
struct Holding {
    held: u64,
    passed: AtomicU64,
    gave_up: AtomicBool,
}

impl Holding {
    fn new(held: u64) -> Holding {
        Holding {
            held,
            passed: AtomicU64::new(0),
            gave_up: AtomicBool::new(false),
        }
    }
}

impl Gate for Holding {
    fn pass(&self, index: u64) {
        if index != self.held {
            self.passed.fetch_add(1, Ordering::SeqCst);
            return;
        }
        for _ in 0..100_000_000u32 {
            if self.passed.load(Ordering::SeqCst) == 15 {
                return;
            }
        }
        self.gave_up.store(true, Ordering::SeqCst);
    }
}

/// Whichever cell one of two workers is held at, the other draws all that are left.
#[test]
fn a_worker_draws_what_a_held_one_leaves(rt: HostRuntime) -> Result<(), Fail> {
    let alloc = rt.alloc();
    let grammar = read(alloc, USUAL)?;
    let plan = Plan::of(alloc, &grammar)?;
    let inputs = bars(alloc, &grammar, 16)?;
    for held in [0u64, 8, 14] {
        let gate = Holding::new(held);
        let order = Order {
            grammar: &grammar,
            plan: &plan,
            inputs: inputs.as_slice(),
        };
        let means = Means {
            rt: &rt,
            alloc,
            gate: &gate,
        };
        let mut rooms = Rooms::new(alloc);
        let mut builds = Steps::<ByWorkers>::zero();
        let tables = build_cells(&means, &order, 2, &mut rooms, &mut builds)?;
        assert!(rt; tables.len() == 16 && builds.count() == 16, "number {held}");
        assert!(rt;
            !gate.gave_up.load(Ordering::SeqCst),
            "number {held} was held to the end"
        );
    }
    Ok(())
}

/// Whether the two tables have the same costs and rules.
fn are_equal(one: &BarTable, other: &BarTable) -> bool {
    for from in 0..5u8 {
        for to in 0..5u8 {
            if one.matrix().get(from, to) != other.matrix().get(from, to) {
                return false;
            }
            if one.rules(from, to) != other.rules(from, to) {
                return false;
            }
        }
    }
    true
}

#[test]
fn any_number_of_workers_gives_equal_tables(rt: HostRuntime) -> Result<(), Fail> {
    let alloc = rt.alloc();
    let grammar = read(alloc, USUAL)?;
    let plan = Plan::of(alloc, &grammar)?;
    let inputs = bars(alloc, &grammar, 128)?;
    let order = Order {
        grammar: &grammar,
        plan: &plan,
        inputs: inputs.as_slice(),
    };
    let means = Means {
        rt: &rt,
        alloc,
        gate: &OpenGate,
    };
    let mut rooms = Rooms::new(alloc);
    let mut builds = Steps::<ByWorkers>::zero();
    let alone = build_cells(&means, &order, 1, &mut rooms, &mut builds)?;
    assert!(rt; alone.len() == 128);
    for workers in [2u32, 3, 16] {
        let tables = build_cells(&means, &order, workers, &mut rooms, &mut builds)?;
        assert!(rt; tables.len() == 128);
        for (one, other) in alone.iter().zip(tables.iter()) {
            assert!(rt; are_equal(one, other), "by {workers} workers");
        }
    }
    assert!(rt; builds.count() == 512);
    Ok(())
}

/// The tables of every twelfth bar differ, so that one far from its place would be seen.
#[test]
fn the_tables_differ(rt: HostRuntime) -> Result<(), Fail> {
    let alloc = rt.alloc();
    let grammar = read(alloc, USUAL)?;
    let plan = Plan::of(alloc, &grammar)?;
    let inputs = bars(alloc, &grammar, 128)?;
    let order = Order {
        grammar: &grammar,
        plan: &plan,
        inputs: inputs.as_slice(),
    };
    let means = Means {
        rt: &rt,
        alloc,
        gate: &OpenGate,
    };
    let mut rooms = Rooms::new(alloc);
    let mut builds = Steps::<ByWorkers>::zero();
    let tables = build_cells(&means, &order, 16, &mut rooms, &mut builds)?;
    let twelfths = tables.iter().step_by(12);
    for (one, other) in twelfths.zip(tables.iter().step_by(12).skip(1)) {
        assert!(rt; !are_equal(one, other));
    }
    Ok(())
}

#[test]
fn no_cells_by_four_workers(rt: HostRuntime) -> Result<(), Fail> {
    let alloc = rt.alloc();
    let grammar = read(alloc, USUAL)?;
    let plan = Plan::of(alloc, &grammar)?;
    let order = Order {
        grammar: &grammar,
        plan: &plan,
        inputs: &[],
    };
    let means = Means {
        rt: &rt,
        alloc,
        gate: &OpenGate,
    };
    let mut rooms = Rooms::new(alloc);
    let mut builds = Steps::<ByWorkers>::zero();
    let tables = build_cells(&means, &order, 4, &mut rooms, &mut builds)?;
    assert!(rt; tables.is_empty() && builds.count() == 0);
    Ok(())
}

/// Counts the numbers that pass, and adds them up.
#[derive(Drop)]
struct Passes {
    count: AtomicU64,
    sum: AtomicU64,
}

impl Gate for Passes {
    fn pass(&self, index: u64) {
        self.count.fetch_add(1, Ordering::SeqCst);
        self.sum.fetch_add(index, Ordering::SeqCst);
    }
}

/// Where the first chord of some bars begins, and whether the tree is to be a leaf.
const EQUAL_BARS: &[(u64, bool)] = &[
    (0, false),
    (500, false),
    (0, false),
    (0, true),
    (500, false),
    (0, true),
    (0, false),
    (1000, false),
];

/// The bars.
fn equal_bars(alloc: Global, grammar: &Grammar) -> Result<Vec<BarInput>, Fail>
    requires { IsReadable grammar.now }
    ensures { IfOk result (λ v. All (λ b. b.resolution ≡ grammar.now.resolution) v.items) }
{
    let mut bars = Vec::new(alloc);
    'bars: for (onset, is_leaf) in EQUAL_BARS {
        let pin = is_leaf.then(|| Shape::leaf());
        bars.push(bar(alloc, grammar, *onset, pin)?)?;
    }
    Ok(bars)
}

/// Each of several bars has the table of a bar that is built alone, and all count, whether they are equal or not.
#[test]
fn equal_bars_have_equal_tables(rt: HostRuntime) -> Result<(), Fail> {
    let alloc = rt.alloc();
    let grammar = read(alloc, USUAL)?;
    let plan = Plan::of(alloc, &grammar)?;
    let inputs = equal_bars(alloc, &grammar)?;
    let gate = Passes {
        count: AtomicU64::new(0),
        sum: AtomicU64::new(0),
    };
    let order = Order {
        grammar: &grammar,
        plan: &plan,
        inputs: inputs.as_slice(),
    };
    let means = Means {
        rt: &rt,
        alloc,
        gate: &gate,
    };
    let mut builds = Steps::<ByWorkers>::zero();
    let tables = build_cells(&means, &order, 2, &mut Rooms::new(alloc), &mut builds)?;
    let counts = (
        tables.len(),
        builds.count(),
        gate.count.load(Ordering::SeqCst),
        gate.sum.load(Ordering::SeqCst),
    );
    assert_eq!(rt; counts, (8, 8, 8, 28));
    for (input, table) in inputs.iter().zip(tables.iter()) {
        let alone = build_cell(alloc, &grammar, input, &mut builds)?;
        assert!(rt; are_equal(&alone, table));
    }
    Ok(())
}
