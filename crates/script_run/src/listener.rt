ghost use Rattle.rhythm_base.specs.declared.limits.TheConstants.{LONGEST_SCRIPT};
ghost use Rattle.rhythm_ports.specs.Causes.{HasCause};
ghost use Rattle.script_run.specs.Desk.{shown};
ghost use Rattle.script_run.specs.Hearing.{CanJoin, Heard, IsLongLine, IsShortLine, Part, Whole, joined};
ghost use Rattle.std.specs.Prelude.{◌≡◌, ◌≤◌, ◌<◌, ◌+◌, ◌↔◌, [], IfOk, IsTrue, MatchBool, OnErr};

use crate::desk::{Desk, is_bye};
use carry_matrix::Steps as Products;
use least_cost::Steps as Builds;
use rhythm_base::{LONGEST_SCRIPT, LONGEST_SCRIPT_LINE, Tag};
use rhythm_ports::{Failed, Gate, Means, Sink};
use session_history::write_studio_reply;
use std::alloc::{AllocError, Global};
use std::marker::Model;
use std::thread::Threads;

/// A desk, the line that was begun, and how many bytes of the script were read.
#[derive(Drop)]
pub struct Listener {
    desk: Desk,
    line: Vec<u8>,
    read: u64,
}

impl Model for Listener {
    ghost use Rattle.std.specs.Coded.{codes};
    ghost use Rattle.rhythm_base.specs.PerformanceCode.{performance_code};
    ghost use Rattle.session_history.specs.HistoryCode.{step_code};
    ghost use Rattle.script_run.specs.DeskCode.{heard_code};
    ghost use Rattle.script_run.specs.Hearing.{Heard};

    ghost Value = { Heard };

    ghost coded = { heard_code (Prim.hlevel (codes)) performance_code (Prim.hlevel (codes, performance_code, step_code)) };

    ghost use Rattle.script_run.specs.Desk.{shown};
    ghost use Rattle.rhythm_base.specs.declared.limits.TheConstants.{LONGEST_SCRIPT, LONGEST_SCRIPT_LINE};
    ghost use Rattle.std.specs.Prelude.{◌≤◌, length, vec_capacity};

    ghost view = { λ l. record {
      desk = shown l.desk;
      begun = l.line.items;
      read = l.read;
    } };

    ghost invariant = { λ l.
        (length l.line.items ≤ LONGEST_SCRIPT_LINE) × (LONGEST_SCRIPT_LINE ≤ vec_capacity l.line) × (l.read ≤ LONGEST_SCRIPT) };
}

impl Listener {
    /// Nothing was heard yet.
    pub fn new(alloc: Global, desk: Desk) -> Result<Listener, AllocError>
        ensures { IfOk result (λ l. l ≡ record { desk = shown desk; begun = []; read = 0 }) }
    {
        let line = Vec::with_capacity(alloc, LONGEST_SCRIPT_LINE as usize)?;
        Ok(Listener {
            desk,
            line,
            read: 0,
        })
    }

    /// Joins a byte to the line that was begun.
    pub fn join(&mut self, byte: u8)
        requires { CanJoin self.old }
        ensures { self.new ≡ joined self.old byte }
    {
        self.line.push_reserved(byte);
        self.read += 1;
    }

    /// Answers the line that was begun, at its newline or at the end of the script, and forgets it. Says whether it is a line that
    /// ends the script.
    pub fn answer<R: Threads + Sync, O: Sink, G: Gate + Sync, B: Tag, P: Tag>(
        &mut self,
        means: &Means<'_, R, G>,
        out: &mut O,
        builds: &mut Builds<B>,
        products: &mut Products<P>,
    ) -> Result<bool, Failed>
        ensures same { (self.new.read ≡ self.old.read) × (self.new.begun ≡ []) }
        ensures ok { IfOk result (Whole O.taken out.old out.new builds.old builds.new self.old self.new.desk) }
        ensures cut { OnErr result (Part O.taken out.old out.new builds.old builds.new self.old self.new.desk) }
        ensures cause { HasCause (O.faults out.old) (O.faults out.new) result }
        ensures products { products.old ≤ products.new }
    {
        let line = self.line.as_slice();
        let reply = self.desk.reply_to(means, line, builds, products);
        self.line.clear();
        match write_studio_reply(out, &reply) {
            Ok(()) => Ok(is_bye(&reply)),
            Err(_partial) => Err(Failed),
        }
    }

    /// Counts the newline of a line that was answered.
    pub fn pass_newline(&mut self)
        requires { self.old.read < LONGEST_SCRIPT }
        ensures { self.new ≡ record self.old { read = self.old.read + 1 } }
    {
        self.read += 1;
    }

    /// Whether no line was begun.
    pub fn has_no_line(&self) -> bool
        ensures { IsTrue result ↔ (self.now.begun ≡ []) }
    {
        self.line.is_empty()
    }

    /// Whether so many bytes were read that one more is too many.
    pub fn is_full(&self) -> bool
        ensures { MatchBool result (self.now.read ≡ LONGEST_SCRIPT) (self.now.read < LONGEST_SCRIPT) }
    {
        self.read == LONGEST_SCRIPT
    }

    /// Whether the line that was begun is as long as a line may be.
    pub fn has_long_line(&self) -> bool
        ensures { MatchBool result (IsLongLine self.now) (IsShortLine self.now) }
    {
        self.line.len() as u64 == LONGEST_SCRIPT_LINE
    }
}
