// What is printed of a turn.
ghost use Rattle.std.specs.Prelude.{◌≡◌, IfOk, OnOk, string_bytes};
ghost use Rattle.sv_flush.specs.Outcome.{Halted};
ghost use Rattle.sv_play.specs.Refused.{LinesAscend};
ghost use Rattle.sv_play.specs.Run as spec;
ghost use Rattle.sv_play.specs.Session.{counted};
ghost use Rattle.sv_session.specs.Plays.{program_of, told};

use crate::flags::Flags;
use crate::lines::{push_log, tally_line, turn_line};
use crate::refused::push_refused;
use std::alloc::Global;
use sv_base::NoMemory;
use sv_parts::Refusal;
use sv_session::{Session, Turned};

/// How turns are printed.
#[derive(Clone, Copy)]
pub struct Printer {
    pub alloc: Global,
    pub flags: Flags,
}

impl Printer {
    /// Numbers what a session shows, where numbers are asked for.
    pub fn number(&self, session: &mut Session<'_>) -> Result<(), NoMemory>
        ensures { OnOk result (session.new ≡ counted self.now.flags session.old) }
    {
        if self.flags.serials {
            session.number()?;
        }
        Ok(())
    }

    /// A turn that was played, by its number: its line, what was logged, the page, and the line of its tally.
    pub fn page(
        &self,
        session: &Session<'_>,
        number: u64,
        turned: &Turned,
    ) -> Result<Vec<u8>, NoMemory>
        requires { turned.now ≡ told turned.now.target session.now.page }
        ensures { IfOk result (λ text. text.items ≡ spec.page_text self.now.flags number turned.now.target session.now.page session.now.numbers session.now.nodes) }
    {
        let head = self.head(session, number, turned.target)?;
        let mut text = head.into_bytes();
        text.extend_from_slice(&session.html(self.flags.serials)?)?;
        text.push(b'\n')?;
        if self.flags.tally {
            text.extend_from_slice(tally_line(self.alloc, turned)?.as_bytes())?;
        }
        Ok(text)
    }

    /// A turn that was refused, by its number: its line, what was logged, and why.
    pub fn refusal(
        &self,
        session: &Session<'_>,
        number: u64,
        refusal: &Refusal,
    ) -> Result<String, NoMemory>
        requires { LinesAscend (program_of session.now) }
        ensures { IfOk result (λ text. string_bytes text ≡ spec.turn_text (program_of session.now) self.now.flags number session.now.numbers (Halted refusal.now session.now.page)) }
    {
        let mut text = self.head(session, number, true)?;
        push_refused(&mut text, session.program(), refusal)?;
        Ok(text)
    }

    // The line of a turn, and what was logged.
    fn head(&self, session: &Session<'_>, number: u64, target: bool) -> Result<String, NoMemory>
        ensures { IfOk result (λ text. string_bytes text ≡ spec.head self.now.flags number target session.now.page) }
    {
        let mut text = turn_line(self.alloc, number, target)?;
        if self.flags.logs {
            push_log(&mut text, session.log())?;
        }
        Ok(text)
    }
}
