//! Builds the tables of stated bars, over and over where that is asked for, and prints what the least trees cost. With no
//! words it builds each stated bar once. The words GROUP ONSETS TIMES name the grammar, the number of chords of the bar and
//! how often its table is built: a longer run less a shorter one gives the time of a table. With a fourth word, WORKERS, the
//! tables are those of so many equal bars, and are built by so many workers, 1 to 16. With the word `planned` before the three the
//! tables are built one after another by one plan of the grammar and in one room; with `alternatives` the 16 best trees of the bar are
//! listed so often in place of its table, with nothing round it, and with `carried` between bars to which chords may be carried.
//!
//! The words DRAW GRAMMAR CELLS WORKERS build the tables of so many bars whose chords are drawn, by `beats` or `sixteenths`, with
//! the grammar of a group or of a file, and print the sum of their costs. The words DRAW GRAMMAR CELLS WORK TIMES make the chain
//! over such tables, up to 4,096, and then so often a `new` one, or `replace` a cell so often.
#![tactic(auto)]

ghost use Rattle.chain_bars.specs.Laws.{matrices};
ghost use Rattle.rhythm_base.specs.Paths.{AreCheap};
ghost use Rattle.rhythm_base.specs.Readable.{IsReadable};
ghost use Rattle.rhythm_base.specs.declared.limits.TheConstants.{DEAREST_CELL};
ghost use Rattle.std.specs.Prelude.{◌≡◌, IfOk};

mod bars;
mod best_lists;
mod chains;
mod drawn;
mod grammars;
mod in_turn;
mod pins;

use bar_alternatives::Alternative;
use bar_pool::{Order, Rooms, build_cells};
use bars::{bar_of, bars_of};
use best_lists::{Around, best_trees, print_trees};
use chains::{ChainWork, chained, matrices_of};
use drawn::{Draw, drawn_bars};
use grammar_plan::Plan;
use grammars::{Group, grammar_named};
use in_turn::build_in_turn;
use least_cost::{BarTable, Steps, build_cell};
use pins::{Cutting, shape_of};
use rhythm_base::{BarInput, Grammar, MOST_WORKERS, Tag};
use rhythm_ports::{Means, OpenGate};
use std::alloc::Global;
use std::env;
use std::io::{self, ErrorKind};
use std::thread::Threads;

/// What the builds of this program are counted for.
#[derive(Clone, Copy)]
struct Benchmark;

impl Tag for Benchmark {}

/// The bars that are built when the program is given no words.
const STATED: &[(Group, u32)] = &[
    (Group::Halves, 0),
    (Group::Halves, 8),
    (Group::Nine, 0),
    (Group::Nine, 8),
    (Group::Nine, 40),
    (Group::Nine, 400),
    (Group::Many, 0),
    (Group::Many, 8),
    (Group::Many, 40),
    (Group::Many, 400),
    (Group::Parts, 0),
    (Group::Parts, 8),
    (Group::Parts, 40),
];

/// A bar of a group with so many chords, and how often its table is built.
#[derive(Clone, Copy)]
struct Task {
    group: Group,
    onsets: u32,
    times: u32,
}

/// What is done over and over: the table of the bar is built, by itself or one after another by one plan of the grammar or by so many
/// workers, or its best trees are listed.
#[derive(Clone, Copy)]
enum Work {
    Table,
    InTurn,
    Tables(u32),
    BestTrees(Around),
}

/// The tables of so many drawn bars, with the grammar of that name.
#[derive(Clone, Copy)]
struct DrawnTask<'a> {
    draw: Draw,
    grammar: &'a str,
    cells: u32,
}

/// The table of a bar with so many chords and a pin that is cut so, of so many leaves, with the grammar of that name.
#[derive(Clone, Copy)]
struct PinnedTask<'a> {
    grammar: &'a str,
    onsets: u32,
    /// None is no pin.
    cutting: Option<Cutting>,
    leaves: u32,
    /// Its best trees, the pin lifted, in place of its table.
    is_lifted: bool,
}

/// What the words ask for.
#[derive(Clone, Copy)]
enum Asked<'a> {
    Stated(Work, Task),
    Drawn(DrawnTask<'a>, u32),
    Chained(DrawnTask<'a>, ChainWork, u32),
    Pinned(PinnedTask<'a>, u32),
}

/// The task of these words.
fn task_of(group: &str, onsets: &str, times: &str) -> Option<Task> {
    Some(Task {
        group: Group::named(group)?,
        onsets: onsets.parse::<u32>().ok()?,
        times: times.parse::<u32>().ok()?,
    })
}

/// The task of these words, where the first says how bars are drawn.
fn drawn_of<'a>(draw: &str, grammar: &'a str, cells: &str) -> Option<DrawnTask<'a>> {
    Some(DrawnTask {
        draw: Draw::named(draw)?,
        grammar,
        cells: cells.parse::<u32>().ok()?,
    })
}

/// What four words ask for.
fn asked_by_four<'a>(first: &str, second: &'a str, third: &str, fourth: &str) -> Option<Asked<'a>> {
    if first == "planned" {
        return Some(Asked::Stated(Work::InTurn, task_of(second, third, fourth)?));
    }
    if let Some(around) = Around::named(first) {
        let task = task_of(second, third, fourth)?;
        return Some(Asked::Stated(Work::BestTrees(around), task));
    }
    let workers = fourth.parse::<u32>().ok()?;
    if let Some(task) = drawn_of(first, second, third) {
        return Some(Asked::Drawn(task, workers));
    }
    let task = task_of(first, second, third)?;
    Some(Asked::Stated(Work::Tables(workers), task))
}

/// What the words after the program's name ask for.
fn asked_of<'a>(words: &'a [String]) -> Option<Asked<'a>> {
    match words {
        [group, onsets, times] => {
            let task = task_of(group.as_str(), onsets.as_str(), times.as_str())?;
            Some(Asked::Stated(Work::Table, task))
        }
        [first, second, third, fourth] => asked_by_four(
            first.as_str(),
            second.as_str(),
            third.as_str(),
            fourth.as_str(),
        ),
        [draw, grammar, cells, work, times] => {
            let task = drawn_of(draw.as_str(), grammar.as_str(), cells.as_str())?;
            let work = ChainWork::named(work.as_str())?;
            Some(Asked::Chained(task, work, times.as_str().parse::<u32>().ok()?))
        }
        [word, grammar, onsets, cutting, leaves, times] => {
            let task = PinnedTask {
                grammar: grammar.as_str(),
                onsets: onsets.as_str().parse::<u32>().ok()?,
                cutting: Cutting::named(cutting.as_str()),
                leaves: leaves.as_str().parse::<u32>().ok()?,
                is_lifted: word.as_str() == "lifted",
            };
            Some(Asked::Pinned(task, times.as_str().parse::<u32>().ok()?))
        }
        _ => None,
    }
}

/// The bar of the task.
fn bar_for(alloc: Global, grammar: &Grammar, task: Task) -> io::Result<BarInput>
    ensures { IfOk result (λ b. b.resolution ≡ grammar.now.resolution) }
{
    let Some(bar) = bar_of(alloc, grammar.resolution, task.onsets, None)? else {
        return Err(io::Error::from(ErrorKind::InvalidInput));
    };
    Ok(bar)
}

/// Builds the table so often and keeps the last.
fn build(alloc: Global, task: Task) -> io::Result<Option<BarTable>> {
    let grammar = task.group.grammar(alloc)?;
    let bar = bar_for(alloc, &grammar, task)?;
    let mut builds = Steps::<Benchmark>::zero();
    let mut last = None;
    for _ in 0..task.times {
        last = Some(build_cell(alloc, &grammar, &bar, &mut builds)?);
    }
    Ok(last)
}

/// Builds the table so often by one plan of the grammar, and keeps the last.
fn build_one_after_another(alloc: Global, task: Task) -> io::Result<Option<BarTable>> {
    let grammar = task.group.grammar(alloc)?;
    let bar = bar_for(alloc, &grammar, task)?;
    Ok(build_in_turn(alloc, &grammar, &bar, task.times)?)
}

/// Builds the tables of so many equal bars by the workers, and keeps the last.
fn build_by<R: Threads + Sync>(
    rt: &R,
    alloc: Global,
    task: Task,
    workers: u32,
) -> io::Result<Option<BarTable>> {
    if workers < 1 || workers > MOST_WORKERS {
        return Err(io::Error::from(ErrorKind::InvalidInput));
    }
    let grammar = task.group.grammar(alloc)?;
    let Some(bars) = bars_of(alloc, grammar.resolution, task.onsets, task.times)? else {
        return Err(io::Error::from(ErrorKind::InvalidInput));
    };
    let plan = Plan::of(alloc, &grammar)?;
    let order = Order {
        grammar: &grammar,
        plan: &plan,
        inputs: bars.as_slice(),
    };
    let means = Means {
        rt,
        alloc,
        gate: &OpenGate,
    };
    let mut rooms = Rooms::new(alloc);
    let mut builds = Steps::<Benchmark>::zero();
    let mut tables = build_cells(&means, &order, workers, &mut rooms, &mut builds)?;
    Ok(tables.pop())
}

/// The tables of so many drawn bars, by the workers.
fn build_drawn<R: Threads + Sync>(
    rt: &R,
    alloc: Global,
    grammar: &Grammar,
    task: DrawnTask<'_>,
    workers: u32,
) -> io::Result<Vec<BarTable>>
    requires { IsReadable grammar.now }
    ensures { IfOk result (λ v. AreCheap DEAREST_CELL (matrices v.items)) }
{
    if workers < 1 || workers > MOST_WORKERS {
        return Err(io::Error::from(ErrorKind::InvalidInput));
    }
    let Some(bars) = drawn_bars(alloc, grammar.resolution, task.draw, task.cells)? else {
        return Err(io::Error::from(ErrorKind::InvalidInput));
    };
    let plan = Plan::of(alloc, grammar)?;
    let order = Order {
        grammar,
        plan: &plan,
        inputs: bars.as_slice(),
    };
    let means = Means {
        rt,
        alloc,
        gate: &OpenGate,
    };
    let mut rooms = Rooms::new(alloc);
    let mut builds = Steps::<Benchmark>::zero();
    let tables = build_cells(&means, &order, workers, &mut rooms, &mut builds)?;
    Ok(tables)
}

/// Builds the table of a bar with a pin, or lists its best trees, so often, and prints what they cost.
fn run_pinned(
    rt: &HostRuntime,
    grammar: &Grammar,
    task: PinnedTask<'_>,
    times: u32,
) -> io::Result<()>
    requires { IsReadable grammar.now }
{
    let alloc = rt.alloc();
    let pin = match task.cutting {
        None => None,
        Some(cutting) => Some(shape_of(alloc, cutting, task.leaves, 1)?),
    };
    let Some(bar) = bar_of(alloc, grammar.resolution, task.onsets, pin)? else {
        return Err(io::Error::from(ErrorKind::InvalidInput));
    };
    print!(rt; "{} {}:", task.grammar, task.onsets)?;
    if task.is_lifted {
        let mut list = Vec::new(alloc);
        for _ in 0..times {
            list = best_trees(alloc, grammar, &bar, Around::Nothing)?;
        }
        return print_trees(rt, alloc, list.as_slice());
    }
    let mut builds = Steps::<Benchmark>::zero();
    let mut last = None;
    for _ in 0..times {
        last = Some(build_cell(alloc, grammar, &bar, &mut builds)?);
    }
    print_built(rt, last)
}

/// Lists the best trees so often and keeps the last list.
fn list_trees(alloc: Global, task: Task, around: Around) -> io::Result<Vec<Alternative>> {
    let grammar = task.group.grammar(alloc)?;
    let bar = bar_for(alloc, &grammar, task)?;
    let mut last = Vec::new(alloc);
    for _ in 0..task.times {
        last = best_trees(alloc, &grammar, &bar, around)?;
    }
    Ok(last)
}

/// The cost of each entry, by the numbers of chords carried in and out.
fn print_costs(rt: &impl Print, table: &BarTable) -> io::Result<()> {
    let mut some = false;
    for from in 0..5u8 {
        for to in 0..5u8 {
            if let Some(best) = table.matrix().get(from, to) {
                print!(rt; " {from}-{to} {}", best.cost)?;
                some = true;
            }
        }
    }
    if !some {
        print!(rt; " no tree")?;
    }
    println!(rt;)
}

/// The costs of a table, where there is one.
fn print_built(rt: &impl Print, table: Option<BarTable>) -> io::Result<()> {
    match table {
        None => println!(rt; " not built"),
        Some(table) => print_costs(rt, &table),
    }
}

fn run<R: Print + Threads + Sync>(rt: &R, alloc: Global, work: Work, task: Task) -> io::Result<()> {
    print!(rt; "{} {}:", task.group.name(), task.onsets)?;
    match work {
        Work::Table => print_built(rt, build(alloc, task)?),
        Work::InTurn => print_built(rt, build_one_after_another(alloc, task)?),
        Work::Tables(workers) => print_built(rt, build_by(rt, alloc, task, workers)?),
        Work::BestTrees(around) => {
            let list = list_trees(alloc, task, around)?;
            print_trees(rt, alloc, list.as_slice())
        }
    }
}

/// Builds the tables of drawn bars, and prints how many there are, how many of them have a tree with nothing carried in or out,
/// and what these cost in all.
fn run_drawn<R: Print + Threads + Sync>(
    rt: &R,
    alloc: Global,
    grammar: &Grammar,
    task: DrawnTask<'_>,
    workers: u32,
) -> io::Result<()>
    requires { IsReadable grammar.now }
{
    let tables = build_drawn(rt, alloc, grammar, task, workers)?;
    let mut some = 0u64;
    let mut sum = 0u64;
    for table in &tables {
        if let Some(best) = table.matrix().get(0, 0) {
            some = some.saturating_add(1);
            sum = sum.saturating_add(best.cost);
        }
    }
    println!(rt;
        "{} {}: {some} with a tree, cost {sum}",
        task.grammar,
        tables.len()
    )
}

/// Makes the chain over the tables of drawn bars, works on it so often, and prints its least cost.
fn run_chained<R: Print + Threads + Sync>(
    rt: &R,
    alloc: Global,
    grammar: &Grammar,
    task: DrawnTask<'_>,
    work: ChainWork,
    times: u32,
) -> io::Result<()>
    requires { IsReadable grammar.now }
{
    let tables = build_drawn(rt, alloc, grammar, task, 1)?;
    let cells = matrices_of(alloc, tables.as_slice())?;
    if cells.is_empty() || cells.len() > 4096 {
        return Err(io::Error::from(ErrorKind::InvalidInput));
    }
    let (cost, products) = chained(alloc, cells.as_slice(), work, times)?;
    print!(rt; "{} {}:", task.grammar, cells.len())?;
    match cost {
        Some(cost) => println!(rt; " cost {cost}, {products} products"),
        None => println!(rt; " no path, {products} products"),
    }
}

fn main(rt: HostRuntime) -> io::Result<()> {
    let alloc = rt.alloc();
    let mut words = Vec::new(alloc);
    for word in env::args(&rt)?.skip(1) {
        words.push(word)?;
    }
    match asked_of(words.as_slice()) {
        Some(Asked::Stated(work, task)) => return run(&rt, alloc, work, task),
        Some(Asked::Drawn(task, workers)) => {
            let grammar = grammar_named(&rt, task.grammar)?;
            return run_drawn(&rt, alloc, &grammar, task, workers);
        }
        Some(Asked::Chained(task, work, times)) => {
            let grammar = grammar_named(&rt, task.grammar)?;
            return run_chained(&rt, alloc, &grammar, task, work, times);
        }
        Some(Asked::Pinned(task, times)) => {
            let grammar = grammar_named(&rt, task.grammar)?;
            return run_pinned(&rt, &grammar, task, times);
        }
        None => {}
    }
    if !words.is_empty() {
        return Err(io::Error::from(ErrorKind::InvalidInput));
    }
    for (group, onsets) in STATED {
        run(
            &rt,
            alloc,
            Work::Table,
            Task {
                group: *group,
                onsets: *onsets,
                times: 1,
            },
        )?;
    }
    Ok(())
}
