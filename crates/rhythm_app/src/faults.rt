ghost use Rattle.rhythm_app.specs.Outcome.{fit_stop, or_stop, render_stop, score_stop};
ghost use Rattle.std.specs.Prelude.{◌≡◌};

use crate::stop::Stop;
use barline_fit::{FitFault, Fitted};
use session_text::ScoreFault;
use smf_writer::RenderFault;

/// What is made by the text of a score, or the stop of a fault of that text.
pub fn score_or_stop<T: Drop>(made: Result<T, ScoreFault>) -> Result<T, Stop>
    ensures { result ≡ or_stop score_stop made }
{
    match made {
        Ok(made) => Ok(made),
        Err(ScoreFault::TooLong { line }) => Err(Stop::ScoreTooLong { line }),
        Err(ScoreFault::Memory) => Err(Stop::Memory),
    }
}

/// The bytes of a MIDI file, or the stop of a fault of rendering.
pub fn rendering_or_stop(made: Result<Vec<u8>, RenderFault>) -> Result<Vec<u8>, Stop>
    ensures { result ≡ or_stop render_stop made }
{
    match made {
        Ok(bytes) => Ok(bytes),
        Err(RenderFault::TooLong { tick }) => Err(Stop::RenderTooLong { tick }),
        Err(RenderFault::Memory) => Err(Stop::Memory),
    }
}

/// The fitted tick of a barline, or the stop of a fault of fitting one.
pub fn fitted_or_stop(made: Result<Fitted, FitFault>) -> Result<Fitted, Stop>
    ensures { result ≡ or_stop fit_stop made }
{
    match made {
        Ok(fitted) => Ok(fitted),
        Err(FitFault::NoBar(bar)) => Err(Stop::NoBarline { bar }),
        Err(FitFault::NoCandidate) => Err(Stop::NoCandidate),
        Err(FitFault::Memory) => Err(Stop::Memory),
    }
}
