ghost use Rattle.edit_session.specs.Opening.{CanOpen};
ghost use Rattle.performance_prepare.specs.Ranges.{AreInRange};
ghost use Rattle.rhythm_app.specs.Asked.{follow};
ghost use Rattle.rhythm_app.specs.Builds.{HasFollowedOver, HasPartlyFollowedOver};
ghost use Rattle.rhythm_app.specs.Inputs.{shown_inputs};
ghost use Rattle.rhythm_app.specs.Outcome.{IsFollowing};
ghost use Rattle.rhythm_app.specs.Stages.{CountsUp, Follows, HasText, said_of};
ghost use Rattle.rhythm_app.specs.declared.stop.Stop.TheVariants as stop;
ghost use Rattle.std.specs.Prelude.{◌≡◌, IfErr, OnOk, Some};

use crate::lent::{Lent, World};
use crate::request::Inputs;
use crate::script_file::opened_session;
use crate::stop::Stop;
use barline_follow::follow;
use edit_session::Session;
use rhythm_base::{Grammar, Performance, Workers};
use rhythm_ports::Means;
use script_writer::write_edits;

/// The text of the script that moves the barlines of a session to those that follow the player.
fn script_over<W: World>(lent: &mut Lent<W>, session: &mut Session) -> Result<Vec<u8>, Stop>
    requires { CanOpen session.old.grammar session.old.performance }
    ensures tests { Follows (IsFollowing session.old.grammar session.old.performance) (said_of result) }
    ensures memory { IfErr result (λ s. s ≡ stop.Memory) }
    ensures builds { OnOk result (HasFollowedOver session.old lent.old.built lent.new.built) }
    ensures most { HasPartlyFollowedOver session.old lent.old.built lent.new.built }
    ensures counts { CountsUp lent.old lent.new }
{
    let means = Means {
        rt: &lent.rt,
        alloc: lent.alloc,
        gate: &lent.gate,
    };
    let script = follow(&means, session, &mut lent.builds, &mut lent.products);
    match script {
        Ok(edits) => match write_edits(lent.alloc, edits.as_slice()) {
            Ok(text) => Ok(text),
            Err(_error) => Err(Stop::Memory),
        },
        Err(_error) => Err(Stop::Memory),
    }
}

/// The text of the script that moves the barlines of a MIDI file to those that follow the player, by a grammar file.
pub fn follow_text<W: World>(
    lent: &mut Lent<W>,
    workers: Workers,
    inputs: Inputs,
) -> Result<Vec<u8>, Stop>
    requires options { AreInRange inputs.options }
    ensures { HasText (Some (follow (shown_inputs inputs.entry))) lent.old lent.new result }
{
    match opened_session(lent, workers, inputs) {
        Ok(mut session) => script_over(lent, &mut session),
        Err(stop) => Err(stop),
    }
}
