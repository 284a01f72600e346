use carry_matrix::Steps as Products;
use least_cost::Steps as Builds;
use rhythm_base::Tag;
use rhythm_ports::{Gate, Shelf, Sink, Source};
use std::alloc::Global;
use std::marker::Model;
use std::thread::Threads;

/// The kinds of what is lent to a run.
pub trait World {
    /// What starts threads.
    type Runtime: Threads + Sync;
    /// The files.
    type Shelf: Shelf;
    /// The edit script.
    type Script: Source;
    /// Where the text, or the replies to the script, are written.
    type Out: Sink;
    /// Where the line of a stop is written.
    type Err: Sink;
    /// What each cell passes before its table is built.
    type Gate: Gate + Sync;
    /// What tables and their products are counted for.
    type Counted: Tag;
}

/// What is lent to a run: all that it reads, writes, counts and starts threads by.
#[derive(Drop)]
pub struct Lent<W: World> {
    /// The runtime, which starts threads.
    pub rt: W::Runtime,
    /// Where memory is taken.
    pub alloc: Global,
    /// The files, by their names.
    pub shelf: W::Shelf,
    /// The edit script.
    pub script: W::Script,
    /// Where the text, or the replies to the script, are written.
    pub out: W::Out,
    /// Where the line of a stop is written.
    pub err: W::Err,
    /// What each cell passes before its table is built.
    pub gate: W::Gate,
    /// How many tables have been built.
    pub builds: Builds<W::Counted>,
    /// How many products of tables have been made.
    pub products: Products<W::Counted>,
}

impl<W: World> Model for Lent<W> {
    ghost use Rattle.rhythm_app.specs.Lent.{Lent};

    ghost Value = { Lent W.Script W.Out W.Err };

    ghost view = { λ l. record {
      files = W.Shelf.files l.shelf;
      strays = W.Shelf.strays l.shelf;
      shelf_faults = W.Shelf.faults l.shelf;
      script = l.script;
      rest = W.Script.rest l.script;
      script_faults = W.Script.faults l.script;
      out = l.out;
      taken = W.Out.taken l.out;
      out_faults = W.Out.faults l.out;
      err = l.err;
      told = W.Err.taken l.err;
      err_faults = W.Err.faults l.err;
      built = l.builds;
      multiplied = l.products;
    } };
}
